// Text and numbers on standard output, and equal numbers as a run, `256x3`.
ghost use Rattle.std.specs.Prelude.{◌≡◌};
ghost use Rattle.printing.specs.Run.{empty_run, grown_by};

const STDOUT_FILENO: i32 = 1;

pub fn text(bytes: &[u8]) {
    io::write_all(STDOUT_FILENO, bytes);
}

pub fn number(n: u64) {
    io::print_decimal(STDOUT_FILENO, n);
}

// A name and a number after it.
pub fn field(name: &[u8], n: u64) {
    text(name);
    number(n);
}

// What the lines below it try.
pub fn heading(name: &[u8]) {
    text(b"\n");
    text(name);
    text(b"\n");
}

// Equal numbers that are not printed yet, at least one.
#[derive(Clone, Copy)]
pub struct Run {
    pub value: u64,
    pub count: u64,
}

// Nothing is held back.
pub fn no_run() -> Option<Run>
    ensures { result ≡ empty_run }
{
    None
}

// One number more: the run grows, or is printed and the next begins.
pub fn add(run: Option<Run>, value: u64) -> Option<Run>
    ensures { result ≡ grown_by value run }
{
    match run {
        Some(run) if run.value == value => Some(Run {
            value,
            count: run.count.wrapping_add(1),
        }),
        _ => {
            end(run);
            Some(Run { value, count: 1 })
        }
    }
}

// Prints what is held back.
pub fn end(run: Option<Run>) {
    if let Some(run) = run {
        field(b" ", run.value);
        if 1 < run.count {
            field(b"x", run.count);
        }
    }
}

pub fn words(ws: &[u16]) {
    numbers(ws);
}

// A sample's counters.
pub fn counters(cs: [u32; 16]) {
    numbers(&cs);
}

// Numbers of any width, equal ones as a run.
fn numbers<N: Copy + Into<u64>>(ns: &[N]) {
    let mut run = no_run();
    for n in ns {
        run = add(run, (*n).into());
    }
    end(run);
}
