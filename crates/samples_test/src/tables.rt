// The table of parity bits: its entries, what goes by it, and what other tables give.
use printing::print;
use words::parity::{parities, parity, parity_by};
use words::word::{byte, odd_ones, odd_ones_by, word, word_by};

// The table itself, and how many bytes and words of ten bits have the same by it as alone.
pub fn parity_table() {
    let table = parities();
    print::text(b"parity bits, sixteen bytes a line\n");
    entries(&table);
    tally(b"entries that are parity bits: ", 256, |number| {
        let byte = byte(*number);
        parity(byte) == u16::from(table[byte as usize])
    });
    // The end mark is set from 256 on.
    tally(b"words by the table: ", 512, |number| {
        let byte = byte(*number);
        let last = 255 < *number;
        word(byte, last) == word_by(&table, byte, last)
    });
    tally(b"tests by the table: ", 1024, |number| {
        odd_ones(*number) == odd_ones_by(&table, *number)
    });
    tally(b"numbers with odd ones: ", 1024, |number| odd_ones(*number));
}

fn entries(table: &[u8]) {
    for row in table.chunks(16) {
        for entry in row {
            print::number(u64::from(*entry));
        }
        print::text(b"\n");
    }
}

// Of how many of the numbers below the end it holds.
fn tally<F: FnMut(&u16) -> bool>(name: &[u8], end: u16, holds: F)
    requires { (f : F) (number : _) → F.pre f number }
{
    print::field(name, (0..end).filter(holds).count() as u64);
    print::field(b" of ", u64::from(end));
    print::text(b"\n");
}

// A short table gives bit 0 past its end, and an entry gives its low bit.
pub fn other_tables() {
    let few = [1, 0, 3];
    bytes_by(b"no entry", &few[0..0]);
    bytes_by(b"1, 0, 3", &few);
    bytes_by(b"256 twos", &[2; 256]);
}

fn bytes_by(name: &[u8], table: &[u8]) {
    byte_by(name, table, 0);
    byte_by(name, table, 1);
    byte_by(name, table, 2);
    byte_by(name, table, 3);
    byte_by(name, table, 255);
}

// A byte's bit and its word by a table, and whether the word passes by the same one.
fn byte_by(name: &[u8], table: &[u8], byte: u8) {
    let word = word_by(table, byte, false);
    print::text(b"by a table of ");
    print::text(name);
    print::field(b", byte ", byte as u64);
    print::field(b": bit ", parity_by(table, byte) as u64);
    print::field(b" word ", word as u64);
    if odd_ones_by(table, word) {
        print::text(b" passes\n");
    } else {
        print::text(b" fails\n");
    }
}
