// The reader's cases: good words from the papers, with a word or two changed.
use super::{given, show};
use printing::print;
use samples::edition::Edition;
use samples::reader::read;

// The first `count` words of a part, or all of a shorter one, once the case has its name.
fn first(edition: Edition, part: &[u16], count: usize) {
    let count = count.min(part.len());
    show::rest(read(edition, &part[..count]));
}

// With another word at a place; past the last nothing changes.
fn with_word(mut words: [u16; 100], place: usize, word: u16) -> [u16; 100] {
    if place < 100 {
        words[place] = word;
    }
    words
}

// A sample's words with another word at a place, which the name ends with.
fn changed(edition: Edition, name: &[u8], resource: bool, place: usize, word: u16) {
    show::case(b"read ", edition, name);
    print::field(b"word ", place.saturating_add(1) as u64);
    print::field(b" is ", word as u64);
    let part = with_word(given::words(edition, resource), place, word);
    first(edition, &part, given::length(edition, resource));
}

fn trace(edition: Edition, place: usize, word: u16) {
    changed(edition, b"", false, place, word);
}

fn resource(edition: Edition, place: usize, word: u16) {
    changed(edition, b"Resource, ", true, place, word);
}

// Listing B's words with two other words, cut to `count` words.
fn trace_two(
    edition: Edition,
    name: &[u8],
    place: usize,
    word: u16,
    later: usize,
    other: u16,
    count: usize,
) {
    show::case(b"read ", edition, name);
    let once = with_word(given::words(edition, false), place, word);
    let part = with_word(once, later, other);
    first(edition, &part, count);
}

// The first words of a sample as edition `from` has it.
fn part(edition: Edition, name: &[u8], from: Edition, resource: bool, count: usize) {
    show::case(b"read ", edition, name);
    if count < given::length(from, resource) {
        show::words(count);
    }
    let words = given::words(from, resource);
    first(edition, &words, count);
}

pub fn whole(edition: Edition) {
    let fields = given::length(edition, false);
    let all = given::length(edition, true);
    part(edition, b"M11", edition, false, fields);
    trace(edition, 0, 279);
    trace(edition, 1, 224);
    trace(edition, fields - 1, 1023);
    part(edition, b"Resource", edition, true, all);
    resource(edition, fields, 7);
    resource(edition, all - 1, 1023);
}

// 20.
pub fn unfinished(edition: Edition) {
    let fields = given::length(edition, false);
    part(edition, b"M12", edition, false, 0);
    part(edition, b"Trace", edition, false, 1);
    part(edition, b"Trace", edition, false, fields - 1);
    part(edition, b"Resource", edition, true, fields);
    part(
        edition,
        b"Resource",
        edition,
        true,
        given::length(edition, true) - 1,
    );
    trace_two(edition, b"Trace, 10 words, word 11 bad", 10, 0, 11, 0, 10);
}

// 21.
pub fn too_large(edition: Edition) {
    trace(edition, 0, 1024);
    trace(edition, 0, 1280);
    trace(edition, 0, 65535);
    trace(edition, 5, 1024);
    trace(edition, given::length(edition, false) - 1, 65535);
    resource(edition, given::length(edition, true) - 1, 1024);
}

// 22: a data bit or the parity bit flipped.
pub fn parity(edition: Edition) {
    trace_two(edition, b"M12, the one word 0", 0, 0, 1, 0, 1);
    trace(edition, 0, 257);
    trace(edition, 1, 260);
    trace(edition, 1, 5);
    trace(edition, given::length(edition, false) - 1, 512);
    resource(edition, given::length(edition, true) - 1, 769);
}

// 23: header bits 5, 6 and 7, and bit 5 of a Resource sample.
pub fn header(edition: Edition) {
    trace(edition, 0, 32);
    trace(edition, 0, 64);
    trace(edition, 0, 128);
    trace(edition, 0, 296);
}

// 24: an end mark early or missing.
pub fn mark(edition: Edition) {
    let fields = given::length(edition, false);
    let all = given::length(edition, true);
    trace(edition, 0, 768);
    trace(edition, 5, 771);
    trace(edition, fields - 2, 768);
    trace(edition, fields - 1, 256);
    resource(edition, fields - 1, 768);
    resource(edition, all - 2, 768);
    resource(edition, all - 1, 256);
}

// Two faults or more in one word: the order is 21, 22, 23, 24.
pub fn two_faults(edition: Edition) {
    changed(edition, b"21 and 22: ", false, 1, 1024);
    changed(edition, b"21 and 23: ", false, 0, 1056);
    changed(edition, b"21 and 24: ", false, 3, 1792);
    changed(edition, b"22 and 23: ", false, 0, 288);
    changed(edition, b"22 and 24: ", false, 3, 512);
    changed(
        edition,
        b"22 and 24: ",
        false,
        given::length(edition, false) - 1,
        0,
    );
    changed(edition, b"23 and 24: ", false, 0, 544);
    changed(edition, b"all four: ", false, 0, 1824);
}

// Two bad words: the first decides.
pub fn first_fault(edition: Edition) {
    let all = given::length(edition, false);
    trace_two(edition, b"21 then 22", 6, 1024, 7, 0, all);
    trace_two(edition, b"22 then 21", 6, 0, 7, 1024, all);
    trace_two(edition, b"23 then 21", 0, 32, 1, 65535, all);
    trace_two(edition, b"24 then 21", 3, 768, 4, 1024, all);
    trace_two(edition, b"24 then 22", 3, 768, all - 1, 0, all);
    trace_two(edition, b"22, and unfinished", 9, 0, 9, 0, 10);
}

// Another byte at the first and the last place of each field.
pub fn borders(edition: Edition) {
    let user = given::user_place(edition);
    let fields = given::length(edition, false);
    trace(edition, 0, 7);
    trace(edition, 1, 7);
    trace(edition, 4, 7);
    trace(edition, 5, 7);
    trace(edition, user - 1, 7);
    trace(edition, user, 7);
    trace(edition, fields - 1, 519);
    resource(edition, fields + 3, 7);
    resource(edition, fields + 4, 7);
    resource(edition, given::length(edition, true) - 1, 519);
}

// 24: the end mark stands where the other edition's samples end. 20: none is due yet.
pub fn other_edition(edition: Edition, other: Edition) {
    let fields = given::length(other, false);
    let all = given::length(other, true);
    part(edition, b"Trace of the other edition", other, false, fields);
    part(edition, b"Resource of the other edition", other, true, all);
    part(edition, b"Trace of the other edition", other, false, 15);
}
