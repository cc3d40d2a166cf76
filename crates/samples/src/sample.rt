// A sample by value, and the byte at each of its places.
ghost use Rattle.std.specs.Prelude.{◌≡◌, get_or};
ghost use Rattle.samples.specs.Layout.{resource, field_bytes, counter_bytes, sample_bytes, sample_length, widths, zero_sample};

use super::edition::{Edition, stamp_bytes, trace_bytes};
use words::byte::byte_at;

// Wide fields first, and the header as wide as the source address: no padding (88 bytes).
#[derive(Clone, Copy)]
pub struct Sample {
    pub user: u64,
    pub stamp: u64,
    pub source: u32,
    pub header: u32,
    pub counters: [u32; 16],
}

impl Sample {
    // Every part zero.
    pub fn zero() -> Sample
        ensures { result ≡ zero_sample }
    {
        Sample {
            user: 0,
            stamp: 0,
            source: 0,
            header: 0,
            counters: [0; 16],
        }
    }
}

// Whether the header is a Resource sample's: bit 3.
pub fn is_resource(header: u32) -> bool
    ensures { result ≡ resource header }
{
    header / 8 % 2 == 1
}

// How many words a sample with this header has.
pub fn word_count(edition: Edition, header: u32) -> usize
    ensures { result ≡ sample_length (widths edition) (resource header) }
{
    let trace = trace_bytes(edition);
    if is_resource(header) {
        trace + 64
    } else {
        trace
    }
}

// The byte at a place of the four fields that every sample has; 0 past them.
pub fn field_byte(
    edition: Edition,
    header: u32,
    source: u32,
    stamp: u64,
    user: u64,
    place: usize,
) -> u8
    ensures { result ≡ get_or (field_bytes (widths edition) header source stamp user) place 0 }
{
    if place < 1 {
        return byte_at(header as u64, place);
    }
    if place < 5 {
        return byte_at(source as u64, place - 1);
    }
    let after_stamp = 5 + stamp_bytes(edition);
    if place < after_stamp {
        return byte_at(stamp, place - 5);
    }
    if place < trace_bytes(edition) {
        return byte_at(user, place - after_stamp);
    }
    0
}

// The byte at a place of the sixteen counters; 0 past them.
pub fn counter_byte(counters: [u32; 16], place: usize) -> u8
    ensures { result ≡ get_or (counter_bytes counters) place 0 }
{
    let i = place / 4;
    if i < 16 {
        byte_at(counters[i] as u64, place % 4)
    } else {
        0
    }
}

// The byte at a place of a sample; 0 past its end.
pub fn sample_byte(edition: Edition, sample: Sample, place: usize) -> u8
    ensures { result ≡ get_or (sample_bytes (widths edition) sample) place 0 }
{
    let first_counter = trace_bytes(edition);
    if place < first_counter {
        return field_byte(
            edition,
            sample.header,
            sample.source,
            sample.stamp,
            sample.user,
            place,
        );
    }
    if is_resource(sample.header) {
        return counter_byte(sample.counters, place - first_counter);
    }
    0
}
