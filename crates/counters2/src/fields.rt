// The three control registers of the sixteen counters: sixteen fields of four bits each, field i in bits 4i to 4i + 3.
ghost use Rattle.std.specs.Prelude.{◌≡◌, ◌<◌};
ghost use Rattle.counters2.specs.Fields.{clocking, disabled, enabling, field_at, fresh_fields, holdable, kept, moding, none_zero, written_fields};

// No padding (24 bytes).
#[derive(Clone, Copy, PartialEq, Eq)]
pub struct Fields {
    pub enable: u64,
    pub mode: u64,
    pub select: u64,
}

// Sixteen fields of 1, and of 4.
const ONES: u64 = 0x1111_1111_1111_1111;

const FOURS: u64 = 0x4444_4444_4444_4444;

impl Fields {
    // After a reset: disabled, external and single, the Timestamp's clock.
    pub fn fresh() -> Fields
        ensures { result ≡ fresh_fields }
    {
        Fields {
            enable: ONES,
            mode: FOURS,
            select: FOURS,
        }
    }

    pub fn enabling(mut self, bits: u64) -> Fields
        ensures { result ≡ enabling bits self }
    {
        self.enable = written(self.enable, bits, 4);
        self
    }

    pub fn moding(mut self, bits: u64) -> Fields
        ensures { result ≡ moding bits self }
    {
        self.mode = written(self.mode, bits, 8);
        self
    }

    pub fn clocking(mut self, bits: u64) -> Fields
        ensures { result ≡ clocking bits self }
    {
        self.select = written(self.select, bits, 8);
        self
    }

    // Every counter disabled; what it counts stays.
    pub fn disabled(mut self) -> Fields
        ensures { result ≡ disabled self }
    {
        self.enable = ONES;
        self
    }

    // Whether each field is one that its register can hold.
    pub fn holdable(self) -> bool
        ensures { result ≡ holdable self }
    {
        none_zero(self.enable, 4) & (none_zero(self.mode, 8) & none_zero(self.select, 8))
    }
}

// Whether no field of a register is zero below `low`, which is 4 or 8: too little for a type of its own.
fn none_zero(bits: u64, low: u64) -> bool
    requires { 0 < low }
    ensures { result ≡ none_zero 16 low bits }
{
    (0..16).all(|i| field(bits, i) % low != 0)
}

// A register after a write: a field that is zero below `low` stays. From the highest field down.
fn written(old: u64, new: u64, low: u64) -> u64
    requires { 0 < low }
    ensures { result ≡ written_fields 16 low old new }
{
    let mut result: u64 = 0;
    for i in (0..16).rev() {
        result = 16 * result + kept(field(old, i), field(new, i), low);
    }
    result
}

fn kept(old: u64, new: u64, low: u64) -> u64
    requires { 0 < low }
    ensures { result ≡ kept low old new }
{
    if new % low == 0 { old } else { new }
}

// A field of a register.
pub fn field(bits: u64, i: usize) -> u64
    ensures { result ≡ field_at bits i }
{
    if i < 16 {
        return (bits >> (4 * i)) % 16;
    }
    0
}
