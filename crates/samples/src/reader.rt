// The reader: the first sample of a part of a stream.
ghost use Rattle.std.specs.Prelude.{◌≡◌, ◌&&◌, cond, map, eqb, leb, suc, ◌+◌, ◌<◌, ◌≤◌, length, take, drop};
ghost use Rattle.words.specs.Bytes.{number};
ghost use Rattle.words.specs.Word.{byte_of};
ghost use Rattle.samples.specs.Layout.{counter_widths, widths};
ghost use Rattle.samples.specs.Read.{decided_at, fault_at, fault_number, found, gather, read_part, sample_of, scan, scanned, wanted};

use super::edition::{Edition, stamp_bytes, trace_bytes, user_bytes};
use super::sample::{Sample, is_resource, word_count};
use words::number::number_by;
use words::table::Parities;
use words::word::{byte, marked, too_large};

// What is wrong with a part: too few words, though all are good, or its first bad word.
#[derive(Clone, Copy, PartialEq, Eq)]
pub enum Fault {
    Unfinished,
    TooLarge,
    Parity,
    Header,
    Mark,
}

// The first sample, and how many words it took.
#[derive(Clone, Copy)]
pub struct Reading {
    pub sample: Sample,
    pub count: usize,
}

// Why no sample was read, and how many good words stand before that: the bad word's place, or all of an unfinished part.
#[derive(Clone, Copy, PartialEq, Eq)]
pub struct Refusal {
    pub fault: Fault,
    pub place: usize,
}

// Reads the first sample of a part; what comes after it is not looked at.
pub fn read(edition: Edition, part: &[u16]) -> Result<Reading, Refusal>
    ensures { found result ≡ read_part (widths edition) part.now }
{
    if part.is_empty() {
        return Err(Refusal {
            fault: Fault::Unfinished,
            place: 0,
        });
    }
    let count = word_count(edition, byte(part[0]) as u32);
    scan(part, count)?;
    Ok(Reading {
        sample: decode(edition, part),
        count,
    })
}

// The first bad word of a sample of `count` words decides.
fn scan(part: &[u16], count: usize) -> Result<(), Refusal>
    requires { 0 < count }
    ensures { result ≡ scanned (scan count 0 part.now) (decided_at count 0 part.now) }
{
    let table = Parities::new();
    // The words before the last, as far as they are there.
    let others = part.len().min(count - 1);
    for place in 0..others {
        if let Some(fault) = fault_at(&table, place, false, part[place]) {
            return Err(Refusal { fault, place });
        }
    }
    if others == part.len() {
        return Err(Refusal {
            fault: Fault::Unfinished,
            place: part.len(),
        });
    }
    match fault_at(&table, others, true, part[others]) {
        Some(fault) => Err(Refusal {
            fault,
            place: others,
        }),
        None => Ok(()),
    }
}

// What is wrong with the word at a place of a sample that ends with it, or that doesn't.
fn fault_at(table: &Parities, place: usize, last: bool, word: u16) -> Option<Fault>
    ensures { result ≡ fault_at (cond last (suc place) 0) place word }
{
    if too_large(word) {
        return Some(Fault::TooLarge);
    }
    if !table.odd_ones(word) {
        return Some(Fault::Parity);
    }
    if bad_header(place, word) {
        return Some(Fault::Header);
    }
    if marked(word) != last {
        return Some(Fault::Mark);
    }
    None
}

// Whether the word is a sample's first and has header bits 5 to 7 set.
fn bad_header(place: usize, word: u16) -> bool
    ensures { result ≡ (eqb place 0 && leb 32 (byte_of word)) }
{
    place == 0 && 32 <= byte(word)
}

// The sample whose words stand at the start of the part.
fn decode(edition: Edition, part: &[u16]) -> Sample
    requires { wanted (widths edition) part.now ≤ length part.now }
    ensures { result ≡ sample_of (widths edition) (map byte_of part.now) }
{
    let header = number_at(part, 0, 1) as u32;
    let source = number_at(part, 1, 4) as u32;
    let stamp_size = stamp_bytes(edition);
    let stamp = number_at(part, 5, stamp_size);
    let user = number_at(part, 5 + stamp_size, user_bytes(edition));
    let counters = if is_resource(header) {
        counters_of(part, trace_bytes(edition))
    } else {
        [0; 16]
    };
    Sample {
        user,
        stamp,
        source,
        header,
        counters,
    }
}

// The sixteen counters, from a place on.
fn counters_of(part: &[u16], start: usize) -> [u32; 16]
    requires { start + 64 ≤ length part.now }
    ensures { result ≡ gather counter_widths (drop start (map byte_of part.now)) }
{
    let mut counters = [0u32; 16];
    for (i, counter) in counters.iter_mut().enumerate() {
        *counter = number_at(part, start + 4 * i, 4) as u32;
    }
    counters
}

// The number that the bytes of `size` words from `start` on give, low byte first.
fn number_at(part: &[u16], start: usize, size: usize) -> u64
    requires { (start + size ≤ length part.now) × (size ≤ 8) }
    ensures { result ≡ number (take size (drop start (map byte_of part.now))) }
{
    number_by(size, |place| byte(part[start + place]))
}

// The number of a fault: document 01's 20 to 24.
pub fn fault_number(fault: Fault) -> u64
    ensures { result ≡ fault_number fault }
{
    match fault {
        Fault::Unfinished => 20,
        Fault::TooLarge => 21,
        Fault::Parity => 22,
        Fault::Header => 23,
        Fault::Mark => 24,
    }
}
