// A block of records: each one's step on the chip, and its line.
ghost use Rattle.std.proofs.Common.{rules};
ghost use Rattle.std.specs.Prelude.{◌≡◌, length, refl};
ghost use Rattle.chip2.specs.Chip2.{fresh as fresh_chip};
ghost use Rattle.chip2.specs.Told.{told};
ghost use Rattle.script2.specs.Run.{block_buffer, block_of, second};

use super::line::{put_plain, put_sent};
use super::operation::{Operation, decode};
use chip2::chip2::Chip2;
use control::answer::Answer;
use turns::format::{Block, Format};
use words::parity::parities;

// The test records of the second chip.
pub struct Second;

impl Format for Second {
    type Chip = Chip2;

    const SIZE: usize = 16;

    ghost SIZE = { 16 };

    ghost form = { second };

    ghost fresh = { fresh_chip };

    ghost size_is = { refl };

    ghost positive = { Prim.search rules };

    ghost roomy = { Prim.search rules };

    fn fresh() -> Chip2 {
        Chip2::fresh()
    }

    fn run_block(chip: Chip2, input: &[u8], out: &mut [u8]) -> Block<Chip2> {
        run_block(chip, input, out)
    }
}

// Runs the records of an input, a last part of one too, as many as the buffer has room for at 6,042 bytes a line.
pub fn run_block(chip: Chip2, input: &[u8], out: &mut [u8]) -> Block<Chip2>
    ensures value { result ≡ block_of input.now (length out.old) chip }
    ensures out_after { out.new ≡ block_buffer input.now out.old chip }
{
    let count = input.len().div_ceil(16).min(out.len() / 6042);
    let table = parities();
    let mut space = [0u16; 1000];
    let words: &mut [u16] = &mut space;
    let mut state = chip;
    let mut at = 0;
    for i in 0..count {
        let start = 16 * i;
        let end = (start + 16).min(input.len());
        let Some(operation) = decode(&input[start..end]) else {
            at = put_plain(9, 0, out, at);
            continue;
        };
        let (number, value) = match operation {
            Operation::Reset => kept(state.hardware_reset(), &mut state),
            Operation::Write(address, bits, lines) => {
                kept(state.write(address, bits, lines), &mut state)
            }
            Operation::Read(address) => kept(state.read(address), &mut state),
            Operation::Ticks(number, levels) => {
                kept(state.timestamp_ticks(number, levels), &mut state)
            }
            Operation::Nodes(number, levels) => kept(state.node_ticks(number, levels), &mut state),
            Operation::Events(mask) => kept(state.external_events(mask), &mut state),
            Operation::Send => kept(state.send_by(&table), &mut state),
            Operation::Fill(places) => {
                let (number, value) = kept(state.send_into(&mut words[..places]), &mut state);
                let sent = value as usize;
                at = put_sent(number, value, &words[..sent], out, at);
                continue;
            }
        };
        at = put_plain(number, value, out, at);
    }
    Block {
        chip: state,
        records: count,
        written: at,
    }
}

// Stores an answer's chip, and leaves its reply's number and its value. Each kind of operation does so by itself, so that the compiler changes
// the chip in place (docs/PERFORMANCE.md).
fn kept(answer: Answer<Chip2>, chip: &mut Chip2) -> (u64, u64)
    ensures { record { chip = chip.new; number = result.0; value = result.1 } ≡ told answer }
{
    *chip = answer.chip;
    (answer.reply.number(), answer.value)
}
