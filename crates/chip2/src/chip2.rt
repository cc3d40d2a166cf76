// The MultiKron II: one record by value, and each operation with the next record beside its reply.
ghost use Rattle.std.specs.Prelude.{◌≡◌, false, ◌<◌, ◌^◌, get_or, length, set};
ghost use Rattle.chip2.specs.Place.{resets};
ghost use Rattle.chip2.specs.Told.{told};
ghost use Rattle.chip2.specs.Table.{send_by};
ghost use Rattle.chip2.specs.Chip2.{after_nodes, after_ticks, configured_all, data_of, enabled_all, external_events, fate_of, fresh, given, hard_reset, inside, node_ticks, read, read_at, read_counter, sample_now, send, send_into, sent_buffer, status_of, take_sample, timestamp_ticks, trigger, trigger_by, with_bank, with_control, with_fields, with_high, with_sources, with_stamp, write, write_at};

use super::place::{Place, find};
use chip::line::Line;
use control::answer::Answer;
use control::control::{Control, header_of, pair};
use control::fate::Fate;
use control::reply::Reply;
use counters::bank::Bank;
use counters2::clocks::{Clocks, phase_after};
use counters2::counts::{fired, loaded, restarted, signalled, ticked};
use counters2::fields::Fields;
use queue::places::stored;
use queue::queue::{Held, Queue};
use samples::edition::Edition;
use words::parity::parities;

const TWO_32: u64 = 1 << 32;

const TWO_56: u64 = 1 << 56;

// The ones above a number of 16, 32 and 56 bits.
const ABOVE_16: u64 = 18446744073709486080;

const ABOVE_32: u64 = 18446744069414584320;

const ABOVE_56: u64 = 18374686479671623680;

// Wide parts first (424 bytes, of which the last two are unused).
#[derive(Clone, Copy, PartialEq, Eq)]
pub struct Chip2 {
    pub stamp: u64,
    pub queue: Queue,
    pub fields: Fields,
    pub bank: Bank,
    pub sources: [u32; 8],
    pub control: Control,
    pub high: u32,
    pub narrow: bool,
    pub phase: u8,
}

impl Chip2 {
    // Every part zero, but write wait set and the fields at their defaults.
    pub fn fresh() -> Chip2
        ensures { result ≡ fresh }
    {
        Chip2::fresh_with(0)
    }

    // The same, but for the Timestamp.
    fn fresh_with(stamp: u64) -> Chip2
        ensures { result ≡ with_stamp stamp fresh }
    {
        Chip2 {
            stamp,
            queue: Queue::empty(),
            fields: Fields::fresh(),
            bank: Bank::zero(),
            sources: [0; 8],
            control: Control::fresh(),
            high: 0,
            narrow: false,
            phase: 0,
        }
    }

    // A fresh chip.
    pub fn hardware_reset(self) -> Answer<Chip2>
        ensures { told result ≡ hard_reset self }
    {
        Answer::done(Chip2::fresh_with(0), 0)
    }

    // Whether the record is inside the bounds of reply 15.
    pub fn inside(self) -> bool
        ensures { result ≡ inside self }
    {
        self.queue.inside(Edition::Second) & ((self.phase < 100) & (self.stamp < TWO_56))
    }

    // Done, with a value that is read: its upper half goes into the High Order register.
    fn given(mut self, value: u64) -> Answer<Chip2>
        ensures { told result ≡ given value self }
    {
        self.high = (value / TWO_32) as u32;
        Answer::done(self, value)
    }

    // The data of a write: in 32-bit mode the upper half comes from the High Order register.
    fn data_of(self, bits: u64) -> u64
        ensures { result ≡ data_of bits self }
    {
        if self.narrow {
            return bits % TWO_32 + TWO_32 * self.high as u64;
        }
        bits
    }
}

impl Chip2 {
    #[tactic(auto, unfolding(crate::specs::Chip2::write))]
    pub fn write(self, address: u64, bits: u64, lines: u8) -> Answer<Chip2>
        ensures { told result ≡ write address bits lines self }
    {
        if self.inside() {
            // A reset by itself: as one arm among the writes it makes the compiler move the whole record at each of them.
            if address == 0 {
                return Answer::done(Chip2::fresh_with(self.stamp), 0);
            }
            return self.write_at(find(address), self.data_of(bits), lines);
        }
        Answer::replied(self, Reply::Outside)
    }

    #[tactic(auto, unfolding(crate::specs::Chip2::read))]
    pub fn read(self, address: u64) -> Answer<Chip2>
        ensures { told result ≡ read address self }
    {
        if self.inside() {
            return self.read_at(find(address));
        }
        Answer::replied(self, Reply::Outside)
    }

    // Ticks of the Timestamp's clock, with the external lines that are high during all of them.
    #[tactic(auto, unfolding(crate::specs::Chip2::timestamp_ticks))]
    pub fn timestamp_ticks(self, count: u32, levels: u16) -> Answer<Chip2>
        ensures { told result ≡ timestamp_ticks count levels self }
    {
        if self.inside() {
            return Answer::done(self.after_ticks(count, levels), 0);
        }
        Answer::replied(self, Reply::Outside)
    }

    // Ticks of the node's clock, likewise.
    #[tactic(auto, unfolding(crate::specs::Chip2::node_ticks))]
    pub fn node_ticks(self, count: u32, levels: u16) -> Answer<Chip2>
        ensures { told result ≡ node_ticks count levels self }
    {
        if self.inside() {
            return Answer::done(self.after_nodes(count, levels), 0);
        }
        Answer::replied(self, Reply::Outside)
    }

    #[tactic(auto, unfolding(crate::specs::Chip2::external_events))]
    pub fn external_events(mut self, mask: u16) -> Answer<Chip2>
        ensures { told result ≡ external_events mask self }
    {
        if self.inside() {
            self.bank = signalled(self.bank, self.fields, mask);
            return Answer::done(self, 0);
        }
        Answer::replied(self, Reply::Outside)
    }

    // The next word, if there is one.
    #[tactic(auto, using(crate::proofs::TableLaws::send_by_lem))]
    pub fn send(self) -> Answer<Chip2>
        ensures { told result ≡ send self }
    {
        let table = parities();
        self.send_by(&table)
    }

    // The same with the parity bits of a lent table, for whoever sends one word after another: `words::parity::parities` gives it. By
    // another table bit 8 is that table's.
    #[tactic(auto, unfolding(crate::specs::Table::send_by))]
    pub fn send_by(mut self, table: &[u8]) -> Answer<Chip2>
        ensures { told result ≡ send_by table.now self }
    {
        if self.inside() {
            if self.queue.is_empty() {
                return Answer::replied(self, Reply::NoWord);
            }
            let sent = self
                .queue
                .send_by(table, Edition::Second, self.bank.shadows);
            self.queue = sent.queue;
            return Answer::done(self, sent.word as u64);
        }
        Answer::replied(self, Reply::Outside)
    }

    // As many words as the buffer has places or as are left.
    #[tactic(auto, unfolding(crate::specs::Chip2::send_into, crate::specs::Chip2::sent_buffer))]
    pub fn send_into(mut self, out: &mut [u16]) -> Answer<Chip2>
        ensures result_value { told result ≡ send_into (length out.old) self }
        ensures out_after { out.new ≡ sent_buffer self out.old }
    {
        if self.inside() {
            let sent = self
                .queue
                .send_into(Edition::Second, self.bank.shadows, out);
            self.queue = sent.queue;
            return Answer::done(self, sent.count);
        }
        Answer::replied(self, Reply::Outside)
    }
}

impl Chip2 {
    // A write but a reset, by what stands at the address.
    #[tactic(auto, unfolding(crate::specs::Chip2::write_at))]
    fn write_at(self, place: Place, bits: u64, lines: u8) -> Answer<Chip2>
        requires { resets place ≡ false }
        ensures { told result ≡ write_at place bits lines self }
    {
        match place {
            Place::Beyond => Answer::replied(self, Reply::TooHigh),
            Place::Nowhere => Answer::replied(self, Reply::Nothing),
            Place::Reset => Answer::done(self, 0),
            Place::Csr => Answer::done(self.configured(bits), 0),
            Place::Timestamp => Answer::replied(self, Reply::Forbidden),
            Place::Filter => Answer::done(self.controlled(self.control.filtering(bits)), 0),
            Place::Waits => Answer::done(self.controlled(self.control.waits_cleared()), 0),
            Place::Overruns => Answer::done(self.controlled(self.control.overruns_cleared()), 0),
            Place::HighOrder => Answer::done(self.raised((bits % TWO_32) as u32), 0),
            Place::Enable => Answer::done(self.enabled(bits), 0),
            Place::Mode => Answer::done(self.fielded(self.fields.moding(bits)), 0),
            Place::Select => Answer::done(self.fielded(self.fields.clocking(bits)), 0),
            Place::Source(i) => Answer::done(self.sourced(i, (bits % TWO_32) as u32), 0),
            Place::Counter(i) => Answer::done(
                self.banked(loaded(self.bank, i, (bits % TWO_32) as u32)),
                0,
            ),
            Place::Shadow(i) => Answer::done(self.banked(fired(self.bank, self.fields, i)), 0),
            Place::Trigger(resource, level) => self.trigger(resource, level, bits, lines),
        }
    }

    // A read, by what stands at the address.
    #[tactic(auto, unfolding(crate::specs::Chip2::read_at))]
    fn read_at(self, place: Place) -> Answer<Chip2>
        requires { self.stamp < 2 ^ 56 }
        ensures { told result ≡ read_at place self }
    {
        match place {
            Place::Beyond => Answer::replied(self, Reply::TooHigh),
            Place::Nowhere => Answer::replied(self, Reply::Nothing),
            Place::Reset => Answer::replied(self, Reply::Forbidden),
            Place::Csr => self.given(self.status()),
            Place::Timestamp => self.given(self.stamp + ABOVE_56),
            Place::Filter => self.given(self.control.filter as u64 + ABOVE_16),
            Place::Waits => self.given(self.control.wait as u64 + ABOVE_32),
            Place::Overruns => self.given(self.control.overrun as u64 + ABOVE_32),
            Place::HighOrder => Answer::done(self, self.high as u64 + ABOVE_32),
            Place::Enable => self.given(self.fields.enable),
            Place::Mode => self.given(self.fields.mode),
            Place::Select => self.given(self.fields.select),
            Place::Source(i) => self.given(self.source(i) as u64 + ABOVE_32),
            Place::Counter(i) => self.read_counter(i),
            Place::Shadow(i) => self.given(self.shadow(i) as u64 + ABOVE_32),
            Place::Trigger(_, _) => Answer::replied(self, Reply::Forbidden),
        }
    }

    fn controlled(mut self, control: Control) -> Chip2
        ensures { result ≡ with_control control self }
    {
        self.control = control;
        self
    }

    fn fielded(mut self, fields: Fields) -> Chip2
        ensures { result ≡ with_fields fields self }
    {
        self.fields = fields;
        self
    }

    fn banked(mut self, bank: Bank) -> Chip2
        ensures { result ≡ with_bank bank self }
    {
        self.bank = bank;
        self
    }

    fn raised(mut self, high: u32) -> Chip2
        ensures { result ≡ with_high high self }
    {
        self.high = high;
        self
    }

    // The settings and the bus's mode after a write of the CSR.
    fn configured(mut self, bits: u64) -> Chip2
        ensures { result ≡ configured_all bits self }
    {
        self.control = self.control.configured(bits);
        self.narrow = pair(bits / 16384 % 2 == 1, bits / 32768 % 2 == 1, self.narrow);
        self
    }

    // The Enable register after a write, and the counters that it resets.
    fn enabled(mut self, bits: u64) -> Chip2
        ensures { result ≡ enabled_all bits self }
    {
        self.fields = self.fields.enabling(bits);
        self.bank = restarted(self.bank, bits);
        self
    }

    // A Source Address register takes a number.
    fn sourced(mut self, index: usize, number: u32) -> Chip2
        ensures { result ≡ with_sources (set self.sources index number) self }
    {
        self.sources = stored(self.sources, index, number);
        self
    }

    fn source(self, index: usize) -> u32
        ensures { result ≡ get_or self.sources index 0 }
    {
        // By a copy of their own: taken from the record, they make the compiler copy all of it (docs/PERFORMANCE.md).
        let sources = self.sources;
        sources.get(index).copied().unwrap_or(0)
    }

    fn shadow(self, index: usize) -> u32
        ensures { result ≡ get_or self.bank.shadows index 0 }
    {
        let shadows = self.bank.shadows;
        shadows.get(index).copied().unwrap_or(0)
    }

    // The CSR as it is read.
    fn status(self) -> u64
        ensures { result ≡ status_of self }
    {
        let csr = self.control.csr(self.queue.full(), self.queue.busy());
        if self.narrow {
            return csr + 16384;
        }
        csr + 32768
    }

    // A counter through the shadows, or a wait, or no data.
    #[tactic(auto, unfolding(crate::specs::Chip2::read_counter))]
    fn read_counter(self, index: usize) -> Answer<Chip2>
        ensures { told result ≡ read_counter index self }
    {
        if self.queue.busy() {
            if self.control.readwait {
                return Answer::replied(self.controlled(self.control.waited()), Reply::Wait);
            }
            return Answer::replied(self, Reply::Busy);
        }
        self.banked(self.bank.copied())
            .given(self.bank.value(index) as u64 + ABOVE_32)
    }

    // The Timestamp and the counters after some ticks of its clock.
    fn after_ticks(mut self, count: u32, levels: u16) -> Chip2
        ensures { result ≡ after_ticks count levels self }
    {
        self.stamp = self.stamp.wrapping_add(u64::from(count)) % TWO_56;
        self.bank = ticked(self.bank, self.fields, levels, Clocks::of_stamp(count));
        self
    }

    // The node clock's phase and the counters after some of its ticks.
    fn after_nodes(mut self, count: u32, levels: u16) -> Chip2
        ensures { result ≡ after_nodes count levels self }
    {
        self.bank = ticked(
            self.bank,
            self.fields,
            levels,
            Clocks::of_node(self.phase, count),
        );
        self.phase = phase_after(self.phase, count);
        self
    }
}

// Triggers. The first chip has functions like these and some above over its own record: a trait over both would be longer than what it shares
// (docs/DESIGN-PASS.md, "Kept").
impl Chip2 {
    // A trigger, by its line, the settings, the Filter and the room.
    #[tactic(auto, unfolding(crate::specs::Chip2::trigger))]
    fn trigger(self, resource: bool, level: usize, bits: u64, lines: u8) -> Answer<Chip2>
        ensures { told result ≡ trigger resource level bits lines self }
    {
        match Line::of(lines) {
            Some(line) => self.trigger_line(resource, level, bits, line),
            None => Answer::replied(self, Reply::Lines),
        }
    }

    // The same, of a trigger with one active line. Each arm that refuses returns: where the match is the function's value, the compiler copies the
    // whole record at every write (docs/PERFORMANCE.md).
    #[tactic(auto, unfolding(crate::specs::Chip2::trigger_by))]
    fn trigger_line(self, resource: bool, level: usize, bits: u64, line: Line) -> Answer<Chip2>
        ensures { told result ≡ trigger_by (fate_of resource level self) resource line.number bits self }
    {
        let control = self.control;
        let full = self.queue.full();
        // Every held sample is looked at, but for a trigger that is off or filtered.
        let blocked = self
            .queue
            .blocked(resource & control.sampling & control.passes(level));
        match control.fate(level, full, blocked) {
            Fate::Off => return Answer::replied(self, Reply::Off),
            Fate::Filtered => return Answer::replied(self, Reply::Filtered),
            Fate::Wait => return Answer::replied(self.controlled(control.waited()), Reply::Wait),
            Fate::Lost => {
                return Answer::replied(
                    self.controlled(control.overran(full, blocked)),
                    Reply::Lost,
                );
            }
            Fate::Taken => {}
        }
        Answer::done(self.take(resource, line, bits), 0)
    }

    // A sample is taken as the record stands.
    fn take(mut self, resource: bool, line: Line, bits: u64) -> Chip2
        ensures { result ≡ take_sample resource line.number bits self }
    {
        self.queue = self.queue.pushed(self.sample_now(resource, line, bits));
        if resource {
            self.bank = self.bank.copied();
        }
        self.control = self.control.taken();
        self
    }

    fn sample_now(self, resource: bool, line: Line, bits: u64) -> Held
        ensures { result ≡ sample_now resource line.number bits self }
    {
        Held {
            user: bits,
            stamp: self.stamp,
            source: self.source(line.number as usize),
            header: header_of(line.number, resource, self.control.lost),
        }
    }
}
