// A capture of four samples, the places where they start, and captures made of it by changing a word.
ghost use Rattle.std.specs.Prelude.{◌≤◌, length};

use samples::edition::Edition;
use samples::sample::Sample;
use samples::writer::write;

// Where the samples behind the first start, and where the last one ends.
#[derive(Clone, Copy)]
pub struct Starts {
    // The Resource sample.
    pub second: usize,
    pub third: usize,
    pub fourth: usize,
    pub end: usize,
}

pub fn starts_of(edition: Edition) -> Starts
    ensures second_bound { result.second ≤ 20 }
    ensures third_bounds { (96 ≤ result.third) × (result.third ≤ 104) }
    ensures fourth_bound { result.fourth ≤ 124 }
    ensures end_bounds { (128 ≤ result.end) × (result.end ≤ 144) }
{
    match edition {
        Edition::First => Starts {
            second: 16,
            third: 96,
            fourth: 112,
            end: 128,
        },
        Edition::Second => Starts {
            second: 20,
            third: 104,
            fourth: 124,
            end: 144,
        },
    }
}

// A Trace, a Resource and two more Trace samples, 128 or 144 words, and words above 1023 up to 144.
pub fn good(edition: Edition) -> [u16; 144] {
    let mut counters = [0u32; 16];
    let first = sample(0, 5, 3, 258, counters);
    let third_one = sample(18, 7, 5, 260, counters);
    let fourth_one = sample(7, 8, 6, 261, counters);
    counters[15] = 7;
    let second_one = sample(9, 6, 4, 259, counters);
    let mut words = [65535u16; 144];
    let starts = starts_of(edition);
    put(edition, first, &mut words, 0);
    put(edition, second_one, &mut words, starts.second);
    put(edition, third_one, &mut words, starts.third);
    put(edition, fourth_one, &mut words, starts.fourth);
    words
}

fn sample(header: u32, source: u32, stamp: u64, user: u64, counters: [u32; 16]) -> Sample {
    Sample {
        user,
        stamp,
        source,
        header,
        counters,
    }
}

// Writes a sample into the places from `start` on.
fn put(edition: Edition, sample: Sample, words: &mut [u16], start: usize)
    requires { start ≤ length words.old }
{
    let _ = write(edition, sample, &mut words[start..]);
}

// With another word at a place of the buffer; past it nothing changes.
pub fn with_word(mut words: [u16; 144], place: usize, word: u16) -> [u16; 144] {
    if place < 144 {
        words[place] = word;
    }
    words
}

// With bits of one word flipped, likewise.
pub fn flipped(mut words: [u16; 144], place: usize, bits: u16) -> [u16; 144] {
    if place < 144 {
        words[place] ^= bits;
    }
    words
}
