// The four clocks that a counter can count: how many of each one's ticks fall within a count of node or Timestamp ticks.
ghost use Rattle.std.specs.Prelude.{◌≡◌};
ghost use Rattle.counters2.specs.Clocks.{node_clocks, phase_after, selected, stamp_clocks};

// No padding (16 bytes).
#[derive(Clone, Copy, PartialEq, Eq)]
pub struct Clocks {
    pub node: u32,
    pub tenth: u32,
    pub hundredth: u32,
    pub stamp: u32,
}

impl Clocks {
    // Node ticks from a phase on, with the tenths and hundredths among them.
    pub fn of_node(phase: u8, count: u32) -> Clocks
        ensures { result ≡ node_clocks phase count }
    {
        let tenth = (phase % 10) as u64 + count as u64;
        let hundredth = phase as u64 + count as u64;
        Clocks {
            node: count,
            tenth: (tenth / 10) as u32,
            hundredth: (hundredth / 100) as u32,
            stamp: 0,
        }
    }

    // Timestamp ticks.
    pub fn of_stamp(count: u32) -> Clocks
        ensures { result ≡ stamp_clocks count }
    {
        Clocks {
            node: 0,
            tenth: 0,
            hundredth: 0,
            stamp: count,
        }
    }

    // The ticks of the clock that a code selects.
    pub fn selected(self, code: u64) -> u32
        ensures { result ≡ selected code self }
    {
        match code {
            1 | 5 => self.node,
            2 | 6 => self.tenth,
            3 | 7 => self.hundredth,
            4 => self.stamp,
            _ => 0,
        }
    }
}

// The node clock's phase after some of its ticks.
pub fn phase_after(phase: u8, count: u32) -> u8
    ensures { result ≡ phase_after count phase }
{
    ((phase as u64 + count as u64) % 100) as u8
}
