// A block of records: each one's step on the chip, and its line.
ghost use Rattle.std.specs.Prelude.{◌≡◌, length, refl};
ghost use Rattle.chip.specs.Chip.{fresh as fresh_chip};
ghost use Rattle.script.specs.Run.{bench, block_buffer, block_of};
ghost use Rattle.std.proofs.Common.{rules};

use super::line::put_line;
use super::operation::{decode, run_by};
use chip::chip::Chip;
use turns::format::{Block, Format};
use words::parity::parities;

// The bench's records.
pub struct Bench;

impl Format for Bench {
    type Chip = Chip;

    const SIZE: usize = 12;

    ghost SIZE = { 12 };

    ghost form = { bench };

    ghost fresh = { fresh_chip };

    ghost size_is = { refl };

    ghost positive = { Prim.search rules };

    ghost roomy = { Prim.search rules };

    fn fresh() -> Chip {
        Chip::fresh()
    }

    fn run_block(chip: Chip, input: &[u8], out: &mut [u8]) -> Block<Chip> {
        run_block(chip, input, out)
    }
}

// Runs the records of an input, a last part of one too, as many as the buffer has room for at 42 bytes a line.
pub fn run_block(chip: Chip, input: &[u8], out: &mut [u8]) -> Block<Chip>
    ensures value { result ≡ block_of input.now (length out.old) chip }
    ensures out_after { out.new ≡ block_buffer input.now out.old chip }
{
    let count = input.len().div_ceil(12).min(out.len() / 42);
    let table = parities();
    let mut state = chip;
    let mut at = 0;
    for i in 0..count {
        let start = 12 * i;
        let end = start + (input.len() - start).min(12);
        let outcome = run_by(&table, state, decode(&input[start..end]));
        at = put_line(outcome.number, outcome.value, out, at);
        state = outcome.chip;
    }
    Block {
        chip: state,
        records: count,
        written: at,
    }
}
