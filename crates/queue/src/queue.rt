// The held samples, and sending them word by word. A Resource sample's counters stand in the shadows, which it keeps busy.
ghost use Rattle.std.specs.Prelude.{◌≡◌, ◌&&◌, eqb, cond, ◌-◌, ◌<◌, get_or, length, set, take};
ghost use Rattle.queue.specs.Queue.{advanced, any_resource, busy, empty_queue, first_count, full, held_sample, inside_queue, pushed, send_buffer, send_many, send_one, shifted, zero_held};
ghost use Rattle.queue.specs.Table.{next_word_by, send_one_by};
ghost use Rattle.samples.specs.Layout.{resource, sample_bytes, sample_length, widths};

use super::places::stored;
use samples::edition::{Edition, trace_bytes};
use samples::sample::{counter_byte, field_byte, is_resource, word_count};
use words::parity::parities;
use words::word::word_by;

// A held sample, but for a Resource sample's counters: no padding (24 bytes).
#[derive(Clone, Copy, PartialEq, Eq)]
pub struct Held {
    pub user: u64,
    pub stamp: u64,
    pub source: u32,
    pub header: u32,
}

// The places, how many hold a sample, and how many words of the first one are sent.
#[derive(Clone, Copy, PartialEq, Eq)]
pub struct Queue {
    pub places: [Held; 8],
    pub held: usize,
    pub sent: usize,
}

// A queue after one word was sent, and the word.
#[derive(Clone, Copy)]
pub struct Sent {
    pub queue: Queue,
    pub word: u16,
}

// A queue after some words were sent into a buffer, and how many.
#[derive(Clone, Copy)]
pub struct SentMany {
    pub queue: Queue,
    pub count: u64,
}

// What stands in a place that is free.
const NO_SAMPLE: Held = Held {
    user: 0,
    stamp: 0,
    source: 0,
    header: 0,
};

impl Queue {
    pub fn empty() -> Queue
        ensures { result ≡ empty_queue }
    {
        Queue {
            places: [NO_SAMPLE; 8],
            held: 0,
            sent: 0,
        }
    }

    // Whether eight samples are held.
    pub fn full(self) -> bool
        ensures { result ≡ full self }
    {
        8 <= self.held
    }

    // Whether none is held, so that there is no word to send.
    pub fn is_empty(self) -> bool
        ensures { result ≡ eqb self.held 0 }
    {
        self.held == 0
    }

    // Whether a Resource sample is held, which keeps the shadows.
    pub fn busy(self) -> bool
        ensures { result ≡ busy self }
    {
        // By places, not by a slice's iterator, for which the compiler copies the record (docs/PERFORMANCE.md).
        let held = self.held.min(8);
        for i in 0..held {
            if is_resource(self.places[i].header) {
                return true;
            }
        }
        false
    }

    // Whether a trigger finds the shadows busy, which it asks only for a Resource sample.
    pub fn blocked(self, resource: bool) -> bool
        ensures { result ≡ (resource && busy self) }
    {
        resource && self.busy()
    }

    // Whether the counts are ones that an operation can leave: at most eight held, fewer words of the first sent than it has, and none
    // sent where none is held.
    pub fn inside(self, edition: Edition) -> bool
        ensures { result ≡ inside_queue (widths edition) self }
    {
        if 8 < self.held {
            return false;
        }
        if self.is_empty() {
            return self.sent == 0;
        }
        self.sent < self.first_count(edition)
    }

    // How many words the first sample has.
    fn first_count(self, edition: Edition) -> usize
        ensures { result ≡ first_count (widths edition) self }
    {
        word_count(edition, self.places[0].header)
    }

    // The queue with one more sample, if there is a place.
    pub fn pushed(mut self, sample: Held) -> Queue
        ensures { result ≡ pushed sample self }
    {
        if self.held < 8 {
            self.places = stored(self.places, self.held, sample);
            self.held += 1;
        }
        self
    }

    // The next word, and the queue after it: with a sample's last word its place is free. With nothing held the word is 0.
    #[tactic(auto, using(crate::proofs::TableLaws::send_one_by_lem))]
    pub fn send(self, edition: Edition, shadows: [u32; 16]) -> Sent
        ensures { result ≡ send_one (widths edition) shadows self }
    {
        let table = parities();
        self.send_by(&table, edition, shadows)
    }

    // The same with the parity bits of a lent table, for whoever sends one word after another.
    pub fn send_by(self, table: &[u8], edition: Edition, shadows: [u32; 16]) -> Sent
        ensures { result ≡ send_one_by table.now (widths edition) shadows self }
    {
        if self.is_empty() {
            return Sent {
                queue: self,
                word: 0,
            };
        }
        let word = self.next_word(table, edition, shadows);
        let queue = self.advanced(edition);
        Sent { queue, word }
    }
}

impl Queue {
    // As many words as the buffer has places or as are left; the rest of the buffer stays.
    pub fn send_into(self, edition: Edition, shadows: [u32; 16], out: &mut [u16]) -> SentMany
        ensures value { result ≡ send_many (widths edition) (length out.old) shadows self }
        ensures out_after { out.new ≡ send_buffer (widths edition) shadows self out.old }
    {
        let table = parities();
        let mut queue = self;
        for i in 0..out.len() {
            if queue.is_empty() {
                return SentMany {
                    queue,
                    count: i as u64,
                };
            }
            out[i] = queue.next_word(&table, edition, shadows);
            queue = queue.advanced(edition);
        }
        SentMany {
            queue,
            count: out.len() as u64,
        }
    }

    // The word that is next, by a lent table of parity bits, 0 past the first sample's end.
    fn next_word(self, table: &[u8], edition: Edition, shadows: [u32; 16]) -> u16
        ensures { result ≡ next_word_by table.now (widths edition) shadows self }
    {
        let first = self.places[0];
        let count = word_count(edition, first.header);
        let sent = self.sent;
        if sent < count {
            return word_by(
                table,
                held_byte(edition, first, shadows, sent),
                sent + 1 == count,
            );
        }
        0
    }

    // The queue after a word was sent.
    fn advanced(mut self, edition: Edition) -> Queue
        ensures { result ≡ advanced (widths edition) self }
    {
        let count = self.first_count(edition);
        if self.sent < count - 1 {
            self.sent += 1;
            return self;
        }
        self.shifted()
    }

    // The others move down, and the last place is empty.
    fn shifted(self) -> Queue
        ensures { result ≡ shifted self }
    {
        let [_, a, b, c, d, e, f, g] = self.places;
        Queue {
            places: [a, b, c, d, e, f, g, NO_SAMPLE],
            held: self.held.saturating_sub(1),
            sent: 0,
        }
    }
}

// The byte at a place of a held sample.
fn held_byte(edition: Edition, h: Held, shadows: [u32; 16], place: usize) -> u8
    requires { place < sample_length (widths edition) (resource h.header) }
    ensures { result ≡ get_or (sample_bytes (widths edition) (held_sample shadows h)) place 0 }
{
    let first_counter = trace_bytes(edition);
    if place < first_counter {
        return field_byte(edition, h.header, h.source, h.stamp, h.user, place);
    }
    counter_byte(shadows, place - first_counter)
}
