// Captures with bad words: the gaps, and the samples before and after them.
use super::{captures, walking};
use samples::edition::Edition;

// The bits that a damage flips.
const ABOVE: u16 = 1024;

const MARK: u16 = 512;

const PARITY: u16 = 256;

// Bit 5, which no header has, and the parity bit with it, so that the parity stays good.
const HEADER: u16 = 256 + 32;

// Damage to the Resource sample's first word, to one among its counters, and to its last.
fn each_place(edition: Edition, bits: u16, first: &[u8], middle: &[u8], last: &[u8]) {
    let start = captures::starts_of(edition).second;
    one_damaged(edition, first, start, bits);
    one_damaged(edition, middle, start + 30, bits);
    one_damaged(edition, last, captures::starts_of(edition).third - 1, bits);
}

// One damaged word.
fn one_damaged(edition: Edition, name: &[u8], place: usize, bits: u16) {
    whole_capture(
        edition,
        name,
        captures::flipped(captures::good(edition), place, bits),
    );
}

// The whole capture.
fn whole_capture(edition: Edition, name: &[u8], words: [u16; 144]) {
    walking::over_first(edition, name, words, captures::starts_of(edition).end, 0);
}

// The numbers 21 to 24.
pub fn numbers(edition: Edition) {
    each_place(
        edition,
        ABOVE,
        b"above 1023, first",
        b"above 1023, middle",
        b"above 1023, last",
    );
    each_place(
        edition,
        PARITY,
        b"parity, first",
        b"parity, middle",
        b"parity, last",
    );
    one_damaged(
        edition,
        b"header bit 5",
        captures::starts_of(edition).second,
        HEADER,
    );
    each_place(
        edition,
        MARK,
        b"end mark, first",
        b"end mark, middle",
        b"no end mark",
    );
}

// What ends a gap, and what is read after it: the last words of a damaged Resource sample may be a whole Trace sample.
pub fn boundaries(edition: Edition) {
    let second = captures::starts_of(edition).second;
    one_damaged(
        edition,
        b"rest is a sample",
        captures::starts_of(edition).third - 1 - second,
        MARK,
    );
    let bad = captures::flipped(captures::good(edition), second + 30, PARITY);
    let large = captures::with_word(bad, second + 40, 1536);
    whole_capture(
        edition,
        b"large words are no boundary",
        captures::with_word(large, second + 50, 65535),
    );
    whole_capture(
        edition,
        b"boundary of bad parity",
        captures::with_word(bad, second + 40, 512),
    );
}

// A gap that ends with the capture.
pub fn up_to_the_end(edition: Edition) {
    let fourth = captures::starts_of(edition).fourth;
    let bad = captures::flipped(captures::good(edition), fourth + 5, PARITY);
    walking::over_first(edition, b"no boundary", bad, fourth + 10, 0);
    whole_capture(edition, b"boundary at the end", bad);
    one_damaged(
        edition,
        b"no end mark at the end",
        captures::starts_of(edition).end - 1,
        MARK,
    );
}

// Gaps in a row, and the words 768, 512 and 544, each a gap by itself: by its end mark, its parity and its header.
pub fn in_a_row(edition: Edition) {
    let good = captures::good(edition);
    let third = captures::starts_of(edition).third;
    let once = captures::flipped(good, captures::starts_of(edition).second + 30, PARITY);
    whole_capture(
        edition,
        b"two gaps",
        captures::flipped(once, third + 5, ABOVE),
    );
    let mark = captures::with_word(good, third, 768);
    let parity = captures::with_word(mark, third + 1, 512);
    whole_capture(
        edition,
        b"gaps of one word",
        captures::with_word(parity, third + 2, 544),
    );
    walking::over_first(
        edition,
        b"one large word",
        captures::with_word(good, 0, 65535),
        1,
        0,
    );
}
