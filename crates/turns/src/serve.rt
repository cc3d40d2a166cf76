// The turns of a program: each takes what there is to read, answers the records that are whole then, and writes their lines.
ghost use Rattle.std.specs.Prelude.{◌+◌, ◌*◌, ◌-◌, ◌≤◌, ◌<◌, ◌≡◌, cond, false, drop, is_ok, length, take, IfOk, OnErr};
ghost use Rattle.std.specs.Process.{exit_status};
ghost use Rattle.turns.specs.Run.{due, due_size, input_chip, input_text, record_count, whole_size};
ghost use Rattle.turns.specs.Turn.{Stopped, Turned};

use super::format::{Block, Format};
use std::io;
use std::io::{Read, Write};
use std::marker::PhantomData;
use std::process::ExitCode;

// What stands between two reads: the chip; how many bytes of the input's buffer have come, and of the text's were handed to the write; whether
// the input has ended, which says what of the bytes is due.
#[derive(Clone, Copy)]
pub(crate) struct Turn<C> {
    chip: C,
    size: usize,
    written: usize,
    ended: bool,
}

// A call of the operating system that failed, and its reason.
#[derive(Drop)]
enum Failure {
    Read(io::Error),
    Write(io::Error),
}

// A format and the two buffers that its program lends: for the input, and for the text with room for the lines of all records that the input's
// buffer holds.
#[derive(Drop)]
pub struct Lent<'a, F: Format> {
    pub format: PhantomData<F>,
    pub input: &'a mut [u8],
    pub text: &'a mut [u8],
    pub ghost record: { F.SIZE ≤ length input.now },
    pub ghost lines: { F.form.room * record_count F.form (length input.now) ≤ length text.now },
}

// Runs a format's records from standard input, and writes a heading and a line for each to standard output. A call that fails is named on
// standard error, behind the program's name.
// Into `main`, so that the buffers are places of its own there (docs/PERFORMANCE.md).
#[inline(always)]
pub fn run<F: Format>(rt: &HostRuntime, program: &str, lent: Lent<'_, F>) -> ExitCode
    ensures { exit_status result ≤ 1 }
{
    let Lent {
        format: _,
        input,
        text,
    } = lent;
    ended(rt, program, serve::<F>(rt, input, text))
}

// A program's status: 0, or 1 after a call that failed, which is told.
fn ended(rt: &HostRuntime, program: &str, served: Result<(), Failure>) -> ExitCode
    ensures { exit_status result ≡ cond (is_ok served) 0 1 }
{
    match served {
        Ok(()) => ExitCode::SUCCESS,
        Err(failure) => {
            tell(rt, program, failure);
            ExitCode::FAILURE
        }
    }
}

fn serve<F: Format>(rt: &HostRuntime, input: &mut [u8], text: &mut [u8]) -> Result<(), Failure>
    requires in_bounds { F.SIZE ≤ length input.old }
    requires input_in_bounds { F.form.room * record_count F.form (length input.old) ≤ length text.old }
{
    rt.write_all(b"answer value\n").map_err(Failure::Write)?;
    let mut turn = Turn {
        chip: F::fresh(),
        size: 0,
        written: 0,
        ended: false,
    };
    // A proved loop has to end, and nothing says that an input does: so many turns no run uses up.
    for _ in 0..u64::MAX {
        if turn.ended {
            break;
        }
        turn = pass::<F>(rt, turn, input, text)?;
    }
    Ok(())
}

// One turn: takes what there is to read behind the part of a record that waits, answers the records that are whole then, and writes their
// lines. What a read gives is answered before the next one.
fn pass<F: Format>(
    rt: &HostRuntime,
    turn: Turn<F::Chip>,
    input: &mut [u8],
    text: &mut [u8],
) -> Result<Turn<F::Chip>, Failure>
    requires ended_value { turn.ended ≡ false }
    requires size_in_bounds { turn.size ≤ length input.old }
    requires in_bounds { F.SIZE ≤ length input.old }
    requires input_in_bounds { F.form.room * record_count F.form (length input.old) ≤ length text.old }
    ensures ok { IfOk result (λ next. Turned F.form turn next input.old input.new text.new) }
    ensures err { OnErr result (Stopped F.form turn input.old input.new text.new) }
{
    let held = keep::<F>(input, turn.size);
    let size = read_behind(rt, input, held)?;
    let ended = size == held;
    let block = answer::<F>(turn.chip, input, size, ended, text);
    let lines = &text[..block.written];
    rt.write_all(lines).map_err(Failure::Write)?;
    Ok(Turn {
        chip: block.chip,
        size,
        written: lines.len(),
        ended,
    })
}

// Moves the part of a record at the end of the first bytes to the front, and says how long it is.
fn keep<F: Format>(input: &mut [u8], size: usize) -> usize
    requires { size ≤ length input.old }
    ensures value { result ≡ size - whole_size F.form size }
    ensures upper_bound { result < F.form.size }
    ensures input_after { take result input.new ≡ take result (drop (whole_size F.form size) input.old) }
{
    let from = whole_size::<F>(size);
    input.copy_within(from..size, 0);
    size - from
}

// One read, behind the bytes that are held: how many bytes have come then, no more than those at the end of the input. A read with no place to
// read to would look like that end.
fn read_behind(rt: &HostRuntime, input: &mut [u8], held: usize) -> Result<usize, Failure>
    requires { held < length input.old }
    ensures held_le_size { IfOk result (λ size. held ≤ size) }
    ensures size_in_bounds { IfOk result (λ size. size ≤ length input.new) }
    ensures input_unchanged { take held input.new ≡ take held input.old }
{
    let count = rt.stdin().read(&mut input[held..]).map_err(Failure::Read)?;
    Ok(held + count)
}

// Answers what is due of the bytes that have come.
fn answer<F: Format>(
    chip: F::Chip,
    input: &[u8],
    size: usize,
    ended: bool,
    text: &mut [u8],
) -> Block<F::Chip>
    requires size_in_bounds { size ≤ length input.now }
    requires input_in_bounds { F.form.room * record_count F.form (length input.now) ≤ length text.old }
    ensures chip_value { result.chip ≡ input_chip F.form (due F.form ended (take size input.now)) chip }
    ensures text_after { take result.written text.new ≡ input_text F.form (due F.form ended (take size input.now)) chip }
    ensures written_in_bounds { result.written ≤ length text.new }
{
    let end = due_size::<F>(ended, size);
    run_all::<F>(chip, &input[..end], text)
}

// How many of the bytes that have come are answered.
fn due_size<F: Format>(ended: bool, size: usize) -> usize
    ensures value { result ≡ due_size F.form ended size }
    ensures upper_bound { result ≤ size }
{
    if ended { size } else { whole_size::<F>(size) }
}

// How many of these bytes are whole records.
fn whole_size<F: Format>(size: usize) -> usize
    ensures value { result ≡ whole_size F.form size }
    ensures upper_bound { result ≤ size }
    ensures rest_bound { size - result < F.SIZE }
{
    F::SIZE * (size / F::SIZE)
}

// Runs all the records of an input, with room for all their lines: the chip after them, and their whole text.
fn run_all<F: Format>(chip: F::Chip, input: &[u8], text: &mut [u8]) -> Block<F::Chip>
    requires { F.form.room * record_count F.form (length input.now) ≤ length text.old }
    ensures chip_value { result.chip ≡ input_chip F.form input.now chip }
    ensures text_after { take result.written text.new ≡ input_text F.form input.now chip }
    ensures written_in_bounds { result.written ≤ length text.new }
{
    F::run_block(chip, input, text)
}

// Names a call that failed, and the system's reason, on standard error.
fn tell(rt: &HostRuntime, program: &str, failure: Failure) {
    let (call, error) = match failure {
        Failure::Read(error) => ("read", error),
        Failure::Write(error) => ("write", error),
    };
    // Room for any of the system's messages; behind the text stand zeros.
    let mut space = [0u8; 320];
    let mut room: &mut [u8] = &mut space;
    let _ = write!(room, "{error}");
    let reason = match std::str::from_utf8(&space) {
        Ok(text) => without_number(text),
        Err(_) => "",
    };
    // Where standard error fails too, nothing is left to tell it to.
    let _ = eprintln!(rt; "{program}: {call}: {reason}");
}

// An error's text without the number that std puts behind it, and without zeros: the line is "bench: write: No space left on device".
fn without_number(text: &str) -> &str {
    match text.split_once(" (os error ") {
        Some((reason, _)) => reason,
        None => text.trim_end_matches('\0'),
    }
}
