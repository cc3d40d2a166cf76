// A record of twelve bytes, and what it does.
ghost use Rattle.std.specs.Prelude.{◌≡◌, ◌+◌, ◌≤◌, ◌<◌, ◌^◌, drop, length, take};
ghost use Rattle.words.specs.Bytes.{number};
ghost use Rattle.chip.specs.Told.{told};
ghost use Rattle.script.specs.Record.{by_kind, fitting, operation_of, outcome_of, reset_by, run_of};
ghost use Rattle.script.specs.Table.{run_by};

use chip::chip::Chip;
use control::answer::Answer;
use words::parity::parities;

const TWO_8: u64 = 1 << 8;

const TWO_16: u64 = 1 << 16;

const TWO_24: u64 = 1 << 24;

const TWO_32: u64 = 1 << 32;

// What a record asks for.
#[derive(Clone, Copy)]
pub enum Operation {
    // Whether the slow clock is to be a hundredth of the Timestamp's.
    Reset(bool),
    // Address, data and processor lines.
    Write(u64, u64, u8),
    Read(u64),
    Ticks(u32),
    Nodes(u32),
    Events(u16),
    Send,
}

// The next chip, the value, and document 01's reply number: no `Reply`, since 9 is none of a chip's.
#[derive(Clone, Copy)]
pub struct Outcome {
    pub chip: Chip,
    pub value: u64,
    pub number: u64,
}

// The operation of a record: kind, address, lines, a zero byte, data; None of a bad one, which is reply 9.
pub fn decode(bytes: &[u8]) -> Option<Operation>
    ensures { result ≡ operation_of bytes.now }
{
    if bytes.len() != 12 {
        return None;
    }
    if bytes[3] != 0 {
        return None;
    }
    by_kind(bytes[0], bytes[1], bytes[2], bits_of(bytes))
}

fn by_kind(kind: u8, address: u8, lines: u8, bits: u64) -> Option<Operation>
    ensures { result ≡ by_kind kind address lines bits }
{
    match kind {
        0 => reset(bits),
        1 => Some(Operation::Write(address as u64, bits, lines)),
        2 => Some(Operation::Read(address as u64)),
        3 => Some(Operation::Ticks(u32::try_from(bits).ok()?)),
        4 => Some(Operation::Nodes(u32::try_from(bits).ok()?)),
        5 => Some(Operation::Events(u16::try_from(bits).ok()?)),
        6 => Some(Operation::Send),
        _ => None,
    }
}

fn reset(bits: u64) -> Option<Operation>
    ensures { result ≡ fitting 1 reset_by bits }
{
    match bits {
        0 => Some(Operation::Reset(false)),
        1 => Some(Operation::Reset(true)),
        _ => None,
    }
}

// The data of a record: its last eight bytes, low first. By sums of four, which the compiler makes one load; by std's `from_le_bytes`, or by one
// function of eight bytes, a record costs 10 to 20 instructions more (docs/PERFORMANCE.md).
fn bits_of(bytes: &[u8]) -> u64
    requires { length bytes.now ≡ 12 }
    ensures { result ≡ number (drop 4 bytes.now) }
{
    quad(bytes, 4) + TWO_32 * quad(bytes, 8)
}

// The number of four bytes, low first.
fn quad(bytes: &[u8], at: usize) -> u64
    requires { at + 4 ≤ length bytes.now }
    ensures value { result ≡ number (take 4 (drop at bytes.now)) }
    ensures upper_bound { result < 2 ^ 32 }
{
    let a = wide(bytes[at]);
    let b = wide(bytes[at + 1]);
    let c = wide(bytes[at + 2]);
    let d = wide(bytes[at + 3]);
    a + TWO_8 * b + TWO_16 * c + TWO_24 * d
}

fn wide(byte: u8) -> u64
    ensures value { result ≡ byte }
    ensures upper_bound { result < 256 }
{
    byte as u64
}

// A record's step on the chip.
pub fn run(chip: Chip, operation: Option<Operation>) -> Outcome
    ensures { result ≡ run_of operation chip }
{
    let table = parities();
    run_by(&table, chip, operation)
}

// The same with the parity bits of a lent table, for whoever runs one record after another.
pub fn run_by(table: &[u8], chip: Chip, operation: Option<Operation>) -> Outcome
    ensures { result ≡ run_by table.now operation chip }
{
    let Some(asked) = operation else {
        return Outcome {
            chip,
            value: 0,
            number: 9,
        };
    };
    match asked {
        Operation::Reset(hundredth) => numbered(chip.hardware_reset(hundredth)),
        Operation::Write(address, bits, lines) => numbered(chip.write(address, bits, lines)),
        Operation::Read(address) => numbered(chip.read(address)),
        Operation::Ticks(count) => numbered(chip.timestamp_ticks(count)),
        Operation::Nodes(count) => numbered(chip.node_ticks(count)),
        Operation::Events(mask) => numbered(chip.external_events(mask)),
        Operation::Send => numbered(chip.send_by(table)),
    }
}

fn numbered(answer: Answer<Chip>) -> Outcome
    ensures { result ≡ outcome_of (told answer) }
{
    Outcome {
        chip: answer.chip,
        value: answer.value,
        number: answer.reply.number(),
    }
}
