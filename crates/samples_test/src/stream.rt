// A stream of several samples, read one after the other.
ghost use Rattle.std.specs.Prelude.{◌≤◌, length};

use super::{given, show};
use samples::edition::Edition;
use samples::reader::read;
use samples::sample::Sample;
use samples::writer::write;

// The stream with eight of the words after it, alone, and without its last twelve words.
pub fn several(edition: Edition) {
    let words = three(edition);
    match edition {
        Edition::First => {
            read_first(edition, b"stream", &words, 120);
            read_first(edition, b"stream of 112", &words, 112);
            read_first(edition, b"stream of 100", &words, 100);
        }
        Edition::Second => {
            read_first(edition, b"stream", &words, 132);
            read_first(edition, b"stream of 124", &words, 124);
            read_first(edition, b"stream of 112", &words, 112);
        }
    }
}

// A Trace, a Resource and a Trace sample, 112 or 124 words, and after them words above 1023.
fn three(edition: Edition) -> [u16; 170] {
    let first = put(edition, given::listing_b(), [65535; 170], 0);
    let resource = given::with_counter(given::sample(9, 6, 4, 259), 15, 7);
    let second = put(edition, resource, first, given::length(edition, false));
    let last = given::sample(18, 7, 5, 260);
    let before = given::length(edition, false) + given::length(edition, true);
    put(edition, last, second, before)
}

// The words with a sample written into the places from `at` on.
fn put(edition: Edition, sample: Sample, mut words: [u16; 170], at: usize) -> [u16; 170]
    requires { at ≤ 170 }
{
    write_from(edition, sample, &mut words, at);
    words
}

fn write_from(edition: Edition, sample: Sample, words: &mut [u16], at: usize)
    requires { at ≤ length words.old }
{
    let _ = write(edition, sample, &mut words[at..]);
}

fn read_first(edition: Edition, name: &[u8], words: &[u16], count: usize) {
    let count = count.min(words.len());
    read_on(edition, name, &words[..count]);
}

// Reads each sample after the one before, until the reader refuses or nothing is left. A `while`, since each turn goes on by what was read.
fn read_on(edition: Edition, name: &[u8], words: &[u16]) {
    let mut at = 0;
    while at < words.len() {
        let found = read(edition, &words[at..]);
        show::reading(edition, name, found);
        let Ok(reading) = found else {
            return;
        };
        at += reading.count;
        show::taken(edition, name, at);
    }
}
