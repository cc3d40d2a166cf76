// What makes an event due to a counter: the enabled set, MUX SEL's two halves, and the slow clock's phase and speed.
ghost use Rattle.std.specs.Prelude.{◌≡◌};
ghost use Rattle.counters.specs.Due.{disabling, divisor_of, due, due_mask, enabling, selecting, selection, slow_events, ticking, zero_switches};

// The four kinds of events that a counter can count.
#[derive(Clone, Copy, PartialEq, Eq)]
pub enum Kind {
    Slow,
    External,
    Software,
    Node,
}

// Eight bytes without padding, which the compiler keeps in one register: the phase is its top byte, since every operation tests it.
#[derive(Clone, Copy, PartialEq, Eq)]
pub struct Switches {
    pub enabled: u16,
    pub low: u16,
    pub high: u16,
    pub hundredth: bool,
    pub phase: u8,
}

// 2^16 and 2^32.
const TWO_16: u64 = 1 << 16;

const TWO_32: u64 = 1 << 32;

impl Switches {
    // Nothing enabled, every field 00, the phase at its start, and the slow clock's speed as it is chosen.
    pub fn zero(hundredth: bool) -> Switches
        ensures { result ≡ zero_switches hundredth }
    {
        Switches {
            enabled: 0,
            low: 0,
            high: 0,
            hundredth,
            phase: 0,
        }
    }

    // The counters that an event of a kind is due to, a bit for each.
    pub fn due_to(self, kind: Kind) -> u16
        ensures { result ≡ due_mask kind self }
    {
        match kind {
            Kind::Slow => self.enabled & (!self.high & !self.low),
            Kind::External => self.enabled & (!self.high & self.low),
            Kind::Software => self.enabled & (self.high & !self.low),
            Kind::Node => self.enabled & (self.high & self.low),
        }
    }

    // Whether a software event is due to a counter.
    pub fn fires(self, index: usize) -> bool
        ensures { result ≡ due Kind.Software self index }
    {
        if index < 16 {
            let on = (self.enabled >> index) % 2 == 1;
            let high = (self.high >> index) % 2 == 1;
            let low = (self.low >> index) % 2 == 1;
            return on & (high & !low);
        }
        false
    }

    pub fn enabling(mut self, bits: u64) -> Switches
        ensures { result ≡ enabling bits self }
    {
        self.enabled |= (bits % TWO_16) as u16;
        self
    }

    pub fn disabling(mut self, bits: u64) -> Switches
        ensures { result ≡ disabling bits self }
    {
        self.enabled &= !((bits % TWO_16) as u16);
        self
    }

    pub fn selecting(mut self, bits: u64) -> Switches
        ensures { result ≡ selecting bits self }
    {
        self.low = (bits % TWO_16) as u16;
        self.high = (bits / TWO_32 % TWO_16) as u16;
        self
    }

    pub fn selection(self) -> u64
        ensures { result ≡ selection self }
    {
        self.low as u64 + TWO_32 * self.high as u64
    }

    // How many Timestamp ticks there are to a slow event.
    pub fn divisor(self) -> u8
        ensures { result ≡ divisor_of self.hundredth }
    {
        if self.hundredth { 100 } else { 10 }
    }

    // How many slow events fall within a count of Timestamp ticks. A division by a constant is the faster one.
    pub fn slow_events(self, count: u32) -> u32
        ensures { result ≡ slow_events count self }
    {
        let ticks = self.phase as u64 + count as u64;
        if self.hundredth {
            return (ticks / 100) as u32;
        }
        (ticks / 10) as u32
    }

    // The slow clock's phase after them, likewise.
    pub fn ticking(mut self, count: u32) -> Switches
        ensures { result ≡ ticking count self }
    {
        let ticks = self.phase as u64 + count as u64;
        if self.hundredth {
            self.phase = (ticks % 100) as u8;
        } else {
            self.phase = (ticks % 10) as u8;
        }
        self
    }
}
