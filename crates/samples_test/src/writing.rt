// The writer's cases. Each buffer has 100 places with a mark in each, and the writer is lent the first `room`.
use super::{given, show};
use printing::print;
use samples::edition::Edition;
use samples::reader::read;
use samples::sample::Sample;
use samples::writer::{WriteError, write};

fn write_first(
    edition: Edition,
    sample: Sample,
    buffer: &mut [u16],
    room: usize,
) -> Result<usize, WriteError> {
    let room = room.min(buffer.len());
    write(edition, sample, &mut buffer[..room])
}

fn written(edition: Edition, name: &[u8], sample: Sample, room: usize) {
    show::case(b"write ", edition, name);
    named(edition, sample, room);
}

// The same once the case has its name, but for the room.
fn named(edition: Edition, sample: Sample, room: usize) {
    show::room(room);
    let mut buffer = [given::MARK; 100];
    let answer = write_first(edition, sample, &mut buffer, room);
    show::written(answer, &buffer);
}

// With a few places, with one too few, and with just enough.
fn rooms(edition: Edition, name: &[u8], sample: Sample, few: usize, enough: usize) {
    written(edition, name, sample, few);
    written(edition, name, sample, enough.saturating_sub(1));
    written(edition, name, sample, enough);
}

// A header with bits of which some are above 4.
fn header_above(edition: Edition, header: u32, room: usize) {
    show::case(b"write ", edition, b"header ");
    print::number(header as u64);
    named(edition, given::sample(header, 5, 3, 258), room);
}

// A sample that is named by what is above its width.
fn above(edition: Edition, name: &[u8], field: &[u8], sample: Sample, room: usize) {
    show::case(b"write ", edition, name);
    print::text(field);
    named(edition, sample, room);
}

// A Timestamp above its width.
fn stamp_above(edition: Edition, name: &[u8], header: u32, room: usize) {
    let stamped = |stamp: u64| given::sample(header, 5, stamp, 258);
    match edition {
        Edition::First => above(edition, name, b"stamp 2^40", stamped(given::TWO_40), room),
        Edition::Second => above(edition, name, b"stamp 2^56", stamped(given::TWO_56), room),
    }
}

// User data above its width; the second edition has none above it, and the largest goes in.
fn user_above(edition: Edition, name: &[u8], header: u32, room: usize) {
    let used = |user: u64| given::sample(header, 5, 3, user);
    match edition {
        Edition::First => above(edition, name, b"user 2^48", used(given::TWO_48), room),
        Edition::Second => above(edition, name, b"user 2^64 - 1", used(given::MAX_64), room),
    }
}

// A Trace sample whose counter at a place isn't zero.
fn counter_above(edition: Edition, place: usize, room: usize) {
    show::case(b"write ", edition, b"Trace, counter ");
    print::number(place as u64);
    print::text(b" is 1");
    named(
        edition,
        given::with_counter(given::listing_b(), place, 1),
        room,
    );
}

// Written, and read back from the same buffer, the marks after the sample with it.
fn there_and_back(edition: Edition, name: &[u8], sample: Sample) {
    let mut buffer = [given::MARK; 100];
    let answer = write(edition, sample, &mut buffer);
    show::case(b"write ", edition, name);
    show::written(answer, &buffer);
    show::reading(edition, name, read(edition, &buffer));
}

// M11 as document 01 has it: bytes.
pub fn marked_example(edition: Edition) {
    let mut buffer = [given::MARK; 100];
    let _ = write(edition, given::listing_b(), &mut buffer);
    first_bytes(
        edition,
        b"M11 bytes",
        &buffer,
        given::length(edition, false),
    );
}

fn first_bytes(edition: Edition, name: &[u8], words: &[u16], count: usize) {
    let count = count.min(words.len());
    show::bytes(edition, name, &words[..count]);
}

pub fn accepted(edition: Edition) {
    there_and_back(edition, b"M11", given::listing_b());
    there_and_back(edition, b"all zeros", given::sample(0, 0, 0, 0));
    there_and_back(edition, b"largest Trace", given::largest(edition, 23));
    let largest = given::with_counters(given::largest(edition, 31), [given::MAX_32; 16]);
    there_and_back(edition, b"largest Resource", largest);
    let counted = given::with_counters(
        given::sample(10, 1, 2, 3),
        [0, 1, 2, 3, 4, 5, 6, 7, 8, 9, 10, 11, 12, 13, 14, 15],
    );
    there_and_back(edition, b"counters 0 to 15", counted);
}

// 17.
pub fn unfit(edition: Edition) {
    header_above(edition, 32, 100);
    header_above(edition, 64, 100);
    header_above(edition, 128, 100);
    header_above(edition, 256, 100);
    header_above(edition, 40, 100);
    stamp_above(edition, b"", 0, 100);
    user_above(edition, b"", 0, 100);
    counter_above(edition, 0, 100);
    counter_above(edition, 15, 100);
}

// 18.
pub fn short(edition: Edition) {
    let fields = given::length(edition, false);
    let all = given::length(edition, true);
    rooms(edition, b"Trace", given::listing_b(), 0, fields);
    rooms(edition, b"Resource", given::sample(8, 0, 0, 0), fields, all);
}

// 17 comes before 18.
pub fn unfit_and_short(edition: Edition) {
    let fields = given::length(edition, false);
    let all = given::length(edition, true);
    header_above(edition, 32, 0);
    stamp_above(edition, b"", 0, fields - 1);
    user_above(edition, b"Resource, ", 8, all - 1);
    counter_above(edition, 15, fields - 1);
}

// Each field at its largest, and the others zero.
pub fn alone(edition: Edition) {
    let largest = given::largest(edition, 31);
    there_and_back(
        edition,
        b"largest header alone",
        given::sample(largest.header, 0, 0, 0),
    );
    there_and_back(
        edition,
        b"largest source alone",
        given::sample(0, largest.source, 0, 0),
    );
    there_and_back(
        edition,
        b"largest stamp alone",
        given::sample(0, 0, largest.stamp, 0),
    );
    there_and_back(
        edition,
        b"largest user alone",
        given::sample(0, 0, 0, largest.user),
    );
    let zero = given::sample(8, 0, 0, 0);
    let first = given::with_counter(zero, 0, given::MAX_32);
    there_and_back(edition, b"largest counter 0 alone", first);
    let last = given::with_counter(zero, 15, given::MAX_32);
    there_and_back(edition, b"largest counter 15 alone", last);
}

// A Resource sample with no room, and one that is unfit with a place too few.
pub fn resource_refused(edition: Edition) {
    written(edition, b"Resource", given::sample(8, 0, 0, 0), 0);
    stamp_above(edition, b"Resource, ", 8, given::length(edition, true) - 1);
}
