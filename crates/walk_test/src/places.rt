// Captures without a bad word: where the walk starts, and where it ends.
use super::{captures, walking};
use samples::edition::Edition;

const MAX: usize = 18446744073709551615;

// A Trace, a Resource and a Trace sample.
pub fn whole(edition: Edition) {
    walking::over_first(
        edition,
        b"whole",
        captures::good(edition),
        captures::starts_of(edition).fourth,
        0,
    );
}

// From a place inside a sample on.
pub fn middle(edition: Edition) {
    from(edition, b"from a Trace sample's middle", 5);
    from(
        edition,
        b"from a Resource sample's middle",
        captures::starts_of(edition).second + 30,
    );
}

fn from(edition: Edition, name: &[u8], start: usize) {
    walking::over_first(
        edition,
        name,
        captures::good(edition),
        captures::starts_of(edition).end,
        start,
    );
}

// At the end and past it.
pub fn end(edition: Edition) {
    let end = captures::starts_of(edition).end;
    from(edition, b"end", end);
    from(edition, b"past the end", end + 1);
    from(edition, b"past the end", MAX);
    let good = captures::good(edition);
    walking::over_first(edition, b"empty", good, 0, 0);
    walking::over_first(edition, b"empty", good, 0, 5);
}

// A capture that ends inside a sample.
pub fn cut(edition: Edition) {
    let good = captures::good(edition);
    let third = captures::starts_of(edition).third;
    walking::over_first(edition, b"cut Trace", good, third + 8, 0);
    walking::over_first(edition, b"cut Trace", good, third + 8, third + 4);
    walking::over_first(edition, b"cut Resource", good, third - 1, 0);
}

// A capture of the other edition's samples.
pub fn other_edition(edition: Edition, other: Edition) {
    walking::over_first(
        edition,
        b"other edition",
        captures::good(other),
        captures::starts_of(other).end,
        0,
    );
}
