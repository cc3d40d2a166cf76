// Every address and every set of processor lines, each tried on the same record; equal answers are one line, `read 128..255: 1 0 same`.
use super::steps::tell;
use chip::chip::Chip;
use control::answer::Answer;
use control::reply::Reply;
use printing::print;
use std::ops::Range;

// What is seen of an answer: the reply, the value, and whether the record stayed as it was.
#[derive(Clone, Copy, PartialEq, Eq)]
struct Outcome {
    reply: Reply,
    value: u64,
    same: bool,
}

// Neighbours with the same answer that are not printed yet.
#[derive(Clone, Copy)]
struct Span {
    first: u64,
    last: u64,
    outcome: Outcome,
}

// The answers at the addresses or lines of a range.
pub(crate) fn sweep<F: Fn(Chip, u64) -> Answer<Chip>>(
    name: &[u8],
    chip: Chip,
    range: Range<u64>,
    answer_at: F,
)
    requires { F.IsAlwaysCallable answer_at }
{
    let mut span = None;
    for at in range {
        span = joined(name, span, at, outcome_of(chip, answer_at(chip, at)));
    }
    print(name, span);
}

fn outcome_of(chip: Chip, answer: Answer<Chip>) -> Outcome {
    Outcome {
        reply: answer.reply,
        value: answer.value,
        same: chip == answer.chip,
    }
}

// One span with the neighbour, or what was held back is printed.
fn joined(name: &[u8], before: Option<Span>, at: u64, outcome: Outcome) -> Option<Span> {
    match before {
        Some(span) if span.outcome == outcome => Some(Span { last: at, ..span }),
        _ => {
            print(name, before);
            Some(Span {
                first: at,
                last: at,
                outcome,
            })
        }
    }
}

fn print(name: &[u8], span: Option<Span>) {
    if let Some(span) = span {
        print::text(name);
        print::field(b" ", span.first);
        if span.first < span.last {
            print::field(b"..", span.last);
        }
        print::field(b": ", span.outcome.reply.number());
        print::field(b" ", span.outcome.value);
        tell(span.outcome.same);
        print::text(b"\n");
    }
}
