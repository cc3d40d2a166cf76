// The sixteen counters and their shadows.
ghost use Rattle.std.specs.Prelude.{◌≡◌, ℕ, ◌<◌, if◌then◌else◌, nat_eq, slice_index};
ghost use Rattle.counters.specs.Bank.{bit, cleared, copied, counting, each, grown, zero_bank};
ghost use Rattle.counters.specs.Due.{fired, signalled, ticked};

use super::switches::{Kind, Switches};

#[derive(Clone, Copy, PartialEq, Eq)]
pub struct Bank {
    pub values: [u32; 16],
    pub shadows: [u32; 16],
}

impl Bank {
    // All counters and shadows zero.
    pub fn zero() -> Bank
        ensures { result ≡ zero_bank }
    {
        Bank {
            values: [0; 16],
            shadows: [0; 16],
        }
    }

    // A count of events of a kind, for the counters that they are due to.
    pub fn ticked(self, s: Switches, kind: Kind, times: u32) -> Bank
        ensures { result ≡ ticked kind times s self }
    {
        self.counted(s.due_to(kind), times)
    }

    // One external event for each set bit whose counter it is due to.
    pub fn signalled(self, s: Switches, mask: u16) -> Bank
        ensures { result ≡ signalled mask s self }
    {
        self.counted(mask & s.due_to(Kind::External), 1)
    }

    // One software event, if it is due to that counter.
    pub fn fired(self, s: Switches, index: usize) -> Bank
        ensures { result ≡ fired index s self }
    {
        if s.fires(index) {
            return self.bumped(index);
        }
        self
    }

    // Each counter of the mask grows by `times`, and wraps.
    fn counted(mut self, mask: u16, times: u32) -> Bank
        ensures { result ≡ counting (bit mask) times self }
    {
        self.values = each_value(self.values, |i, v| {
            if (mask >> i) % 2 == 1 {
                v.wrapping_add(times)
            } else {
                v
            }
        });
        self
    }

    // One counter grows by one.
    fn bumped(mut self, index: usize) -> Bank
        ensures { result ≡ counting (λ j. nat_eq j index) 1 self }
    {
        if index < 16 {
            self.values[index] = self.values[index].wrapping_add(1);
        }
        self
    }

    // The counters of the mask become zero.
    pub fn cleared(mut self, mask: u16) -> Bank
        ensures { result ≡ cleared mask self }
    {
        self.values = each_value(self.values, |i, v| {
            if (mask >> i) % 2 == 1 { 0 } else { v }
        });
        self
    }

    // All sixteen are copied to the shadows.
    pub fn copied(mut self) -> Bank
        ensures { result ≡ copied self }
    {
        // By a name of its own: an array stored straight from one field into another gets no proof.
        let values = self.values;
        self.shadows = values;
        self
    }

    // One counter.
    pub fn value(self, index: usize) -> u32
        ensures { result ≡ slice_index self.values index }
    {
        if index < 16 { self.values[index] } else { 0 }
    }
}

// Each of sixteen numbers becomes what `f` makes of its place and itself.
pub fn each_value<F: Fn(usize, u32) -> u32>(mut values: [u32; 16], f: F) -> [u32; 16]
    requires { (i v : ℕ) → i < 16 → F.pre f i v }
    ensures { (g : ℕ → ℕ → ℕ) → ((i v r : ℕ) → i < 16 → F.post f i v r → r ≡ g i v) → result ≡ each g 0 values }
{
    for i in 0..16 {
        values[i] = f(i, values[i]);
    }
    values
}
