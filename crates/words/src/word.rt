// A word of the stream: data bits 0 to 7, parity bit 8, end mark bit 9.
ghost use Rattle.std.specs.Prelude.{◌≡◌};
ghost use Rattle.words.specs.Table.{odd_by, word_by};
ghost use Rattle.words.specs.Word.{word_of, too_large, odd_ones, marked, byte_of};

use super::parity::parity_by;
use super::table::Parities;

// The word of a byte by a lent table of parity bits, with the end mark where it is the last one.
pub fn word_by(table: &[u8], byte: u8, last: bool) -> u16
    ensures { result ≡ word_by table.now last byte }
{
    let plain = byte as u16 + 256 * parity_by(table, byte);
    if last { plain + 512 } else { plain }
}

// The word of a single byte.
pub fn word(byte: u8, last: bool) -> u16
    ensures { result ≡ word_of last byte }
{
    Parities::new().word(byte, last)
}

// Whether a number of 16 bits is above 1023, more than ten bits hold.
pub fn too_large(word: u16) -> bool
    ensures { result ≡ too_large word }
{
    1023 < word
}

// Whether bits 0 to 8 have an odd number of ones, by a lent table: bit 8 is the byte's parity bit.
pub fn odd_ones_by(table: &[u8], word: u16) -> bool
    ensures { result ≡ odd_by table.now word }
{
    let bit = word / 256 % 2;
    bit == parity_by(table, (word % 256) as u8)
}

// Whether bits 0 to 8 of a single word have an odd number of ones.
pub fn odd_ones(word: u16) -> bool
    ensures { result ≡ odd_ones word }
{
    Parities::new().odd_ones(word)
}

// Whether the end mark is set.
pub fn marked(word: u16) -> bool
    ensures { result ≡ marked word }
{
    word / 512 % 2 == 1
}

// The data bits.
pub fn byte(word: u16) -> u8
    ensures { result ≡ byte_of word }
{
    (word % 256) as u8
}
