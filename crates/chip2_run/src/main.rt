// The MultiKron II test program: records from standard input to a fresh chip, a line for each to standard output.
#![tactic(auto)]

ghost use Rattle.std.specs.Prelude.{◌≡◌, ◌≤◌, ◌*◌, length};
ghost use Rattle.chip2.specs.Chip2.{fresh};
ghost use Rattle.script2.specs.Run.{record_count, second};

use script2::block::Second;
use std::marker::PhantomData;
use std::process::ExitCode;
use turns::format::Format;
use turns::serve::{Lent, run};

// What the program runs.
type Records = Second;

fn main(rt: HostRuntime) -> ExitCode {
    let mut records = [0u8; 8192];
    let mut lines = room();
    run(&rt, "chip2_run", lent(&mut records, &mut lines))
}

// The program's buffers, lent for its records: they are the MultiKron II's, from a fresh chip on.
#[inline(always)]
fn lent<'a>(records: &'a mut [u8], lines: &'a mut [u8]) -> Lent<'a, Records>
    requires record { 16 ≤ length records.old }
    requires lines { 6042 * record_count (length records.old) ≤ length lines.old }
    ensures form { ⟦<Records as Format>⟧.form ≡ second }
    ensures fresh { ⟦<Records as Format>⟧.fresh ≡ fresh }
{
    Lent {
        format: PhantomData,
        input: records,
        text: lines,
    }
}

// Room for the lines of 512 records, 6,042 bytes each. By itself, so that `main`'s proof takes the length from the type: so many zeros are too
// many to count in a proof.
fn room() -> [u8; 3093504] {
    [0; 3093504]
}
