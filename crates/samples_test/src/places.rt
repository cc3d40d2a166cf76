// How many words a sample has, and the byte at each of its places.
use super::{given, show};
use printing::print;
use samples::edition::Edition;
use samples::sample::{Sample, sample_byte, word_count};

// By the header alone: bit 3.
pub fn counts(edition: Edition) {
    count(edition, 0);
    count(edition, 7);
    count(edition, 8);
    count(edition, 23);
    count(edition, 24);
    count(edition, 31);
}

fn count(edition: Edition, header: u32) {
    show::case(b"count ", edition, b"header ");
    print::number(header as u64);
    print::field(b": ", word_count(edition, header) as u64);
    print::text(b"\n");
}

// Every place, and the first past the end.
pub fn bytes(edition: Edition, name: &[u8], header: u32, resource: bool) {
    show::case(b"", edition, name);
    bytes_below(
        edition,
        given::lettered(header),
        given::length(edition, resource) + 1,
    );
    print::text(b"\n");
}

fn bytes_below(edition: Edition, sample: Sample, end: usize) {
    for place in 0..end {
        show::hex(sample_byte(edition, sample, place));
    }
}
