// The chip: one record by value, and each operation with the next record beside its reply.
ghost use Rattle.std.specs.Prelude.{◌≡◌, get_or, length, set};
ghost use Rattle.chip.specs.Told.{told};
ghost use Rattle.chip.specs.Table.{send_by};
ghost use Rattle.chip.specs.Chip.{after_ticks, external_events, fresh, hard_reset, inside, node_ticks, read, read_at, read_counter, sample_now, send, send_into, sent_buffer, soft_reset, take_sample, timestamp_ticks, trigger, trigger_by, fate_of, with_bank, with_choice, with_control, with_sources, with_stamp, with_switches, write, write_at};

use super::line::Line;
use super::place::{Place, find};
use control::answer::Answer;
use control::control::{Control, TWO_16, header_of};
use control::reply::Reply;
use counters::bank::Bank;
use counters::switches::{Kind, Switches};
use queue::places::stored;
use queue::queue::{Held, Queue};
use samples::edition::Edition;
use words::parity::parities;

const TWO_32: u64 = 1 << 32;

const TWO_40: u64 = 1 << 40;

const TWO_48: u64 = 1 << 48;

const TWO_56: u64 = 1 << 56;

// Wide parts first: no padding (400 bytes).
#[derive(Clone, Copy, PartialEq, Eq)]
pub struct Chip {
    pub stamp: u64,
    pub queue: Queue,
    pub bank: Bank,
    pub sources: [u32; 8],
    pub control: Control,
    pub switches: Switches,
}

impl Chip {
    // Every part zero, but write wait set, and the slow clock at a tenth of the Timestamp's.
    pub fn fresh() -> Chip
        ensures { result ≡ fresh }
    {
        Chip::fresh_with(0, false)
    }

    // The same, but for the Timestamp and the slow clock's speed.
    fn fresh_with(stamp: u64, hundredth: bool) -> Chip
        ensures { result ≡ with_stamp stamp (with_choice hundredth fresh) }
    {
        Chip {
            stamp,
            queue: Queue::empty(),
            bank: Bank::zero(),
            sources: [0; 8],
            control: Control::fresh(),
            switches: Switches::zero(hundredth),
        }
    }

    // A fresh chip, whose slow clock has the speed that is chosen.
    pub fn hardware_reset(self, hundredth: bool) -> Answer<Chip>
        ensures { told result ≡ hard_reset hundredth self }
    {
        Answer::done(Chip::fresh_with(0, hundredth), 0)
    }

    // Whether the record is inside the bounds of reply 15.
    pub fn inside(self) -> bool
        ensures { result ≡ inside self }
    {
        if self.switches.divisor() <= self.switches.phase {
            return false;
        }
        self.queue.inside(Edition::First) & (self.stamp < TWO_56)
    }
}

impl Chip {
    #[tactic(auto, unfolding(crate::specs::Chip::write))]
    pub fn write(self, address: u64, bits: u64, lines: u8) -> Answer<Chip>
        ensures { told result ≡ write address bits lines self }
    {
        if self.inside() {
            return self.write_at(find(address), bits, lines);
        }
        Answer::replied(self, Reply::Outside)
    }

    #[tactic(auto, unfolding(crate::specs::Chip::read))]
    pub fn read(self, address: u64) -> Answer<Chip>
        ensures { told result ≡ read address self }
    {
        if self.inside() {
            return self.read_at(find(address));
        }
        Answer::replied(self, Reply::Outside)
    }

    #[tactic(auto, unfolding(crate::specs::Chip::timestamp_ticks))]
    pub fn timestamp_ticks(self, count: u32) -> Answer<Chip>
        ensures { told result ≡ timestamp_ticks count self }
    {
        if self.inside() {
            return Answer::done(self.after_ticks(count), 0);
        }
        Answer::replied(self, Reply::Outside)
    }

    #[tactic(auto, unfolding(crate::specs::Chip::node_ticks))]
    pub fn node_ticks(mut self, count: u32) -> Answer<Chip>
        ensures { told result ≡ node_ticks count self }
    {
        if self.inside() {
            self.bank = self.bank.ticked(self.switches, Kind::Node, count);
            return Answer::done(self, 0);
        }
        Answer::replied(self, Reply::Outside)
    }

    #[tactic(auto, unfolding(crate::specs::Chip::external_events))]
    pub fn external_events(mut self, mask: u16) -> Answer<Chip>
        ensures { told result ≡ external_events mask self }
    {
        if self.inside() {
            self.bank = self.bank.signalled(self.switches, mask);
            return Answer::done(self, 0);
        }
        Answer::replied(self, Reply::Outside)
    }

    // The next word, if there is one.
    #[tactic(auto, using(crate::proofs::TableLaws::send_by_lem))]
    pub fn send(self) -> Answer<Chip>
        ensures { told result ≡ send self }
    {
        let table = parities();
        self.send_by(&table)
    }

    // The same with the parity bits of a lent table, for whoever sends one word after another: `words::parity::parities` gives it. By
    // another table bit 8 is that table's.
    #[tactic(auto, unfolding(crate::specs::Table::send_by))]
    pub fn send_by(mut self, table: &[u8]) -> Answer<Chip>
        ensures { told result ≡ send_by table.now self }
    {
        if self.inside() {
            if self.queue.is_empty() {
                return Answer::replied(self, Reply::NoWord);
            }
            let sent = self.queue.send_by(table, Edition::First, self.bank.shadows);
            self.queue = sent.queue;
            return Answer::done(self, sent.word as u64);
        }
        Answer::replied(self, Reply::Outside)
    }

    // As many words as the buffer has places or as are left.
    #[tactic(auto, unfolding(crate::specs::Chip::send_into, crate::specs::Chip::sent_buffer))]
    pub fn send_into(mut self, out: &mut [u16]) -> Answer<Chip>
        ensures result_value { told result ≡ send_into (length out.old) self }
        ensures out_after { out.new ≡ sent_buffer self out.old }
    {
        if self.inside() {
            let sent = self.queue.send_into(Edition::First, self.bank.shadows, out);
            self.queue = sent.queue;
            return Answer::done(self, sent.count);
        }
        Answer::replied(self, Reply::Outside)
    }
}

impl Chip {
    // A write, by what stands at the address.
    #[tactic(auto, unfolding(crate::specs::Chip::write_at))]
    fn write_at(self, place: Place, bits: u64, lines: u8) -> Answer<Chip>
        ensures { told result ≡ write_at place bits lines self }
    {
        match place {
            Place::Beyond => Answer::replied(self, Reply::TooHigh),
            Place::Nowhere => Answer::replied(self, Reply::Nothing),
            Place::Reset => Answer::done(self.soft_reset(), 0),
            Place::Csr => Answer::done(self.controlled(self.control.configured(bits)), 0),
            Place::Timestamp => Answer::replied(self, Reply::Forbidden),
            Place::Filter => Answer::done(self.controlled(self.control.filtering(bits)), 0),
            Place::Waits => Answer::done(self.controlled(self.control.waits_cleared()), 0),
            Place::Overruns => Answer::done(self.controlled(self.control.overruns_cleared()), 0),
            Place::Mux => Answer::done(self.switched(self.switches.selecting(bits)), 0),
            Place::Clear => Answer::done(self.banked(self.bank.cleared((bits % TWO_16) as u16)), 0),
            Place::Enable => Answer::done(self.switched(self.switches.enabling(bits)), 0),
            Place::Disable => Answer::done(self.switched(self.switches.disabling(bits)), 0),
            Place::Source(i) => Answer::done(self.sourced(i, (bits % TWO_32) as u32), 0),
            Place::Counter(i) => Answer::done(self.banked(self.bank.fired(self.switches, i)), 0),
            Place::Trigger(resource, level) => self.trigger(resource, level, bits, lines),
        }
    }

    // A read, by what stands at the address.
    #[tactic(auto, unfolding(crate::specs::Chip::read_at))]
    fn read_at(self, place: Place) -> Answer<Chip>
        ensures { told result ≡ read_at place self }
    {
        match place {
            Place::Beyond => Answer::replied(self, Reply::TooHigh),
            Place::Nowhere => Answer::replied(self, Reply::Nothing),
            Place::Reset => Answer::replied(self, Reply::Forbidden),
            Place::Csr => Answer::done(
                self,
                self.control.csr(self.queue.full(), self.queue.busy()),
            ),
            Place::Timestamp => Answer::done(self, self.stamp),
            Place::Filter => Answer::done(self, self.control.filter as u64),
            Place::Waits => Answer::done(self, self.control.wait as u64),
            Place::Overruns => Answer::done(self, self.control.overrun as u64),
            Place::Mux => Answer::done(self, self.switches.selection()),
            Place::Clear => Answer::replied(self, Reply::Forbidden),
            Place::Enable => Answer::done(self, self.switches.enabled as u64),
            Place::Disable => Answer::replied(self, Reply::Forbidden),
            Place::Source(i) => Answer::done(self, self.source(i) as u64),
            Place::Counter(i) => self.read_counter(i),
            Place::Trigger(_, _) => Answer::replied(self, Reply::Forbidden),
        }
    }

    fn soft_reset(self) -> Chip
        ensures { result ≡ soft_reset self }
    {
        Chip::fresh_with(self.stamp, self.switches.hundredth)
    }

    fn controlled(mut self, control: Control) -> Chip
        ensures { result ≡ with_control control self }
    {
        self.control = control;
        self
    }

    fn switched(mut self, switches: Switches) -> Chip
        ensures { result ≡ with_switches switches self }
    {
        self.switches = switches;
        self
    }

    fn banked(mut self, bank: Bank) -> Chip
        ensures { result ≡ with_bank bank self }
    {
        self.bank = bank;
        self
    }

    // A Source Address register takes a number.
    fn sourced(mut self, index: usize, number: u32) -> Chip
        ensures { result ≡ with_sources (set self.sources index number) self }
    {
        self.sources = stored(self.sources, index, number);
        self
    }

    fn source(self, index: usize) -> u32
        ensures { result ≡ get_or self.sources index 0 }
    {
        // By a copy of their own: taken from the record, they make the compiler copy all of it (docs/PERFORMANCE.md).
        let sources = self.sources;
        sources.get(index).copied().unwrap_or(0)
    }

    // A counter through the shadows, or a wait, or no data.
    #[tactic(auto, unfolding(crate::specs::Chip::read_counter))]
    fn read_counter(self, index: usize) -> Answer<Chip>
        ensures { told result ≡ read_counter index self }
    {
        if self.queue.busy() {
            if self.control.readwait {
                return Answer::replied(self.controlled(self.control.waited()), Reply::Wait);
            }
            return Answer::replied(self, Reply::Busy);
        }
        Answer::done(
            self.banked(self.bank.copied()),
            self.bank.value(index) as u64,
        )
    }

    // The Timestamp, the slow clock and the counters after some ticks.
    fn after_ticks(mut self, count: u32) -> Chip
        ensures { result ≡ after_ticks count self }
    {
        let slow = self.switches.slow_events(count);
        self.stamp = self.stamp.wrapping_add(u64::from(count)) % TWO_56;
        self.bank = self.bank.ticked(self.switches, Kind::Slow, slow);
        self.switches = self.switches.ticking(count);
        self
    }
}

// Triggers. The MultiKron II has functions like these and some above over its own record: a trait over both would be longer than what it shares
// (docs/DESIGN-PASS.md, "Kept").
impl Chip {
    // A trigger, by its line, the settings, the Filter and the room.
    #[tactic(auto, unfolding(crate::specs::Chip::trigger))]
    fn trigger(self, resource: bool, level: usize, bits: u64, lines: u8) -> Answer<Chip>
        ensures { told result ≡ trigger resource level bits lines self }
    {
        match Line::of(lines) {
            Some(line) => self.trigger_line(resource, level, bits, line),
            None => Answer::replied(self, Reply::Lines),
        }
    }

    // The same, of a trigger with one active line. One test after the other: by a match over the control's `fate`, as the MultiKron II has it,
    // the compiler copies the whole record at every operation (docs/PERFORMANCE.md).
    #[tactic(auto, unfolding(crate::specs::Chip::trigger_by))]
    fn trigger_line(self, resource: bool, level: usize, bits: u64, line: Line) -> Answer<Chip>
        ensures { told result ≡ trigger_by (fate_of resource level self) resource line.number bits self }
    {
        let control = self.control;
        if !control.sampling {
            return Answer::replied(self, Reply::Off);
        }
        if !control.passes(level) {
            return Answer::replied(self, Reply::Filtered);
        }
        let full = self.queue.full();
        let blocked = self.queue.blocked(resource);
        if full | blocked {
            if control.writewait {
                return Answer::replied(self.controlled(control.waited()), Reply::Wait);
            }
            return Answer::replied(self.controlled(control.overran(full, blocked)), Reply::Lost);
        }
        Answer::done(self.take(resource, line, bits), 0)
    }

    // A sample is taken as the record stands.
    fn take(mut self, resource: bool, line: Line, bits: u64) -> Chip
        ensures { result ≡ take_sample resource line.number bits self }
    {
        self.queue = self.queue.pushed(self.sample_now(resource, line, bits));
        if resource {
            self.bank = self.bank.copied();
        }
        self.control = self.control.taken();
        self
    }

    fn sample_now(self, resource: bool, line: Line, bits: u64) -> Held
        ensures { result ≡ sample_now resource line.number bits self }
    {
        Held {
            user: bits % TWO_48,
            stamp: self.stamp % TWO_40,
            source: self.source(line.number as usize),
            header: header_of(line.number, resource, self.control.lost),
        }
    }
}
