// The bench program: records from standard input to a fresh chip, a line for each to standard output.
#![tactic(auto)]

ghost use Rattle.std.specs.Prelude.{◌≡◌, ◌≤◌, ◌*◌, length};
ghost use Rattle.chip.specs.Chip.{fresh};
ghost use Rattle.script.specs.Run.{bench, record_count};

use script::block::Bench;
use std::marker::PhantomData;
use std::process::ExitCode;
use turns::format::Format;
use turns::serve::{Lent, run};

// What the program runs.
type Records = Bench;

fn main(rt: HostRuntime) -> ExitCode {
    // 4,096 records, and 42 bytes of text for each.
    let mut records = [0u8; 49152];
    let mut lines = [0u8; 172032];
    run(&rt, "bench", lent(&mut records, &mut lines))
}

// The program's buffers, lent for its records: they are the bench's, from a fresh chip on.
#[inline(always)]
fn lent<'a>(records: &'a mut [u8], lines: &'a mut [u8]) -> Lent<'a, Records>
    requires record { 12 ≤ length records.old }
    requires lines { 42 * record_count (length records.old) ≤ length lines.old }
    ensures form { ⟦<Records as Format>⟧.form ≡ bench }
    ensures fresh { ⟦<Records as Format>⟧.fresh ≡ fresh }
{
    Lent {
        format: PhantomData,
        input: records,
        text: lines,
    }
}
