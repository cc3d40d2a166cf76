// Samples, and words worked out by hand from document 01 and, for the second edition, document 02's Wish 9.
ghost use Rattle.std.specs.Prelude.{◌≤◌};

use samples::edition::Edition;
use samples::sample::Sample;

// The mark that a buffer is filled with before it is lent.
pub const MARK: u16 = 43690;

// The largest numbers of 32 and 64 bits, and the first above 40, 48 and 56 bits.
pub const MAX_32: u32 = 4294967295;

pub const MAX_64: u64 = 18446744073709551615;

pub const TWO_40: u64 = 1 << 40;

pub const TWO_48: u64 = 1 << 48;

pub const TWO_56: u64 = 1 << 56;

// How many words a Trace sample or a Resource sample has.
pub fn length(edition: Edition, resource: bool) -> usize
    ensures { (16 ≤ result) × (result ≤ 84) }
{
    match edition {
        Edition::First => { if resource { 80 } else { 16 } }
        Edition::Second => { if resource { 84 } else { 20 } }
    }
}

// The place of the first byte of user data, from the papers and not by the code that is tried.
pub fn user_place(edition: Edition) -> usize
    ensures { (10 ≤ result) × (result ≤ 12) }
{
    match edition {
        Edition::First => 10,
        Edition::Second => 12,
    }
}

// A Trace sample, or by header bit 3 a Resource sample whose counters are zero.
pub fn sample(header: u32, source: u32, stamp: u64, user: u64) -> Sample {
    Sample {
        user,
        stamp,
        source,
        header,
        counters: [0; 16],
    }
}

// Listing B's sample.
pub fn listing_b() -> Sample {
    sample(0, 5, 3, 258)
}

// The fields at their largest.
pub fn largest(edition: Edition, header: u32) -> Sample {
    match edition {
        Edition::First => sample(header, MAX_32, TWO_40 - 1, TWO_48 - 1),
        Edition::Second => sample(header, MAX_32, TWO_56 - 1, MAX_64),
    }
}

pub fn with_counter(mut sample: Sample, place: usize, value: u32) -> Sample {
    if place < 16 {
        sample.counters[place] = value;
    }
    sample
}

pub fn with_counters(sample: Sample, counters: [u32; 16]) -> Sample {
    Sample { counters, ..sample }
}

// Fields whose bytes tell their place, beyond the widths too: a1 to a4, b1 to b8, c1 to c8, and d1 to d4 and e1 to e4 in counters 0 and 15.
pub fn lettered(header: u32) -> Sample {
    let fields = sample(header, 0xa4a3a2a1, 0xb8b7b6b5b4b3b2b1, 0xc8c7c6c5c4c3c2c1);
    let first = with_counter(fields, 0, 0xd4d3d2d1);
    with_counter(first, 15, 0xe4e3e2e1)
}

// A sample's words, and after them zeros' words up to a hundred. The Trace sample is Listing B's: the bytes of M11, each with its parity
// bit, and the end mark on the last. The Resource sample has header 8 and nothing but zeros after it.
pub fn words(edition: Edition, resource: bool) -> [u16; 100] {
    let mut words = [256u16; 100];
    if resource {
        words[0] = 8;
    } else {
        words[1] = 261;
        words[5] = 259;
        let user = user_place(edition);
        words[user] = 2;
        words[user + 1] = 1;
    }
    let last = length(edition, resource) - 1;
    words[last] = 768;
    words
}
