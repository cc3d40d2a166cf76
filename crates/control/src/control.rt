// The settings, the Filter, the error counters, the overrun flags and the lost mark; and a sample's header, which tells of it.
ghost use Rattle.std.specs.Prelude.{◌≡◌, ◌||◌};
ghost use Rattle.counters.specs.Bank.{bit};
ghost use Rattle.control.specs.Fate.{fate};
ghost use Rattle.control.specs.Control.{configured, csr_of, filtering, fresh_control, header_of, overran, pair, taken, overruns_cleared, waits_cleared, waited};

use super::fate::Fate;

// No padding (16 bytes). The Filter stands last: before the bools it makes every operation dearer (docs/PERFORMANCE.md, "Wait by default").
#[derive(Clone, Copy, PartialEq, Eq)]
pub struct Control {
    pub wait: u32,
    pub overrun: u32,
    pub sampling: bool,
    pub writewait: bool,
    pub readwait: bool,
    pub flagfull: bool,
    pub flagbusy: bool,
    pub lost: bool,
    pub filter: u16,
}

pub const TWO_16: u64 = 1 << 16;

impl Control {
    // After either reset: write wait set, the other settings off, every number and mark zero.
    pub fn fresh() -> Control
        ensures { result ≡ fresh_control }
    {
        Control {
            wait: 0,
            overrun: 0,
            sampling: false,
            writewait: true,
            readwait: false,
            flagfull: false,
            flagbusy: false,
            lost: false,
            filter: 0,
        }
    }

    // The three settings after a write of the CSR.
    pub fn configured(mut self, bits: u64) -> Control
        ensures { result ≡ configured bits self }
    {
        self.sampling = pair(bits % 2 == 1, bits / 2 % 2 == 1, self.sampling);
        self.writewait = pair(bits / 4 % 2 == 1, bits / 8 % 2 == 1, self.writewait);
        self.readwait = pair(bits / 16 % 2 == 1, bits / 32 % 2 == 1, self.readwait);
        self
    }

    pub fn filtering(mut self, bits: u64) -> Control
        ensures { result ≡ filtering bits self }
    {
        self.filter = (bits % TWO_16) as u16;
        self
    }

    // One wait more.
    pub fn waited(mut self) -> Control
        ensures { result ≡ waited self }
    {
        self.wait = self.wait.wrapping_add(1);
        self
    }

    pub fn waits_cleared(mut self) -> Control
        ensures { result ≡ waits_cleared self }
    {
        self.wait = 0;
        self
    }

    // One lost trigger more, with its reasons.
    pub fn overran(mut self, full: bool, busy: bool) -> Control
        ensures { result ≡ overran full busy self }
    {
        self.overrun = self.overrun.wrapping_add(1);
        self.flagfull = self.flagfull | full;
        self.flagbusy = self.flagbusy | busy;
        self.lost = true;
        self
    }

    // The Overrun Counter and both flags cleared, the lost mark kept.
    pub fn overruns_cleared(mut self) -> Control
        ensures { result ≡ overruns_cleared self }
    {
        self.overrun = 0;
        self.flagfull = false;
        self.flagbusy = false;
        self
    }

    // The lost mark went with a taken sample.
    pub fn taken(mut self) -> Control
        ensures { result ≡ taken self }
    {
        self.lost = false;
        self
    }

    // Whether the Filter lets a level pass.
    pub fn passes(self, level: usize) -> bool
        ensures { result ≡ bit self.filter level }
    {
        if level < 16 {
            (self.filter >> level) % 2 == 1
        } else {
            false
        }
    }

    // What becomes of a trigger of a level, where the queue is full or not and the shadows are busy for it or not.
    pub fn fate(self, level: usize, full: bool, busy: bool) -> Fate
        ensures { result ≡ fate self.sampling (bit self.filter level) (full || busy) self.writewait }
    {
        if !self.sampling {
            Fate::Off
        } else if !self.passes(level) {
            Fate::Filtered
        } else if !(full | busy) {
            Fate::Taken
        } else if self.writewait {
            Fate::Wait
        } else {
            Fate::Lost
        }
    }

    // The CSR as it is read.
    pub fn csr(self, full: bool, busy: bool) -> u64
        ensures { result ≡ csr_of full busy self }
    {
        let settings = u64::from(self.sampling)
            + 4 * u64::from(self.writewait)
            + 16 * u64::from(self.readwait);
        let queue = 64 * u64::from(full) + 128 * u64::from(busy);
        let flags = 256 * u64::from(self.flagfull) + 512 * u64::from(self.flagbusy);
        settings + queue + flags
    }
}

// A setting after its pair of bits: the odd bit wins.
pub fn pair(even: bool, odd: bool, before: bool) -> bool
    ensures { result ≡ pair even odd before }
{
    if odd {
        return false;
    }
    if even {
        return true;
    }
    before
}

// A sample's header: the active line's number, whether it is a Resource sample, and the lost mark before its trigger.
pub fn header_of(line: u8, resource: bool, lost: bool) -> u32
    ensures { result ≡ header_of line resource lost }
{
    u32::from(line) + 8 * u32::from(resource) + 16 * u32::from(lost)
}
