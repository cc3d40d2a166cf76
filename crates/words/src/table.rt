// The parity table as a value that is known to be it, so that who is lent it need not ask.
ghost use Rattle.std.specs.Prelude.{◌≡◌};
ghost use Rattle.words.specs.Table.{parity_table};
ghost use Rattle.words.specs.Word.{odd_ones, word_of};

use super::parity::parities;
use super::word::{odd_ones_by, word_by};

// All 256 parity bits. The compiler builds them anew for each value, so a loop over words makes one before it and lends it.
#[derive(Drop)]
pub struct Parities {
    bits: [u8; 256],
    ghost all_right: { bits ≡ parity_table },
}

impl Parities {
    pub fn new() -> Parities
        ensures { result.bits ≡ parity_table }
    {
        Parities { bits: parities() }
    }

    // The word of a byte, with the end mark where it is the last one.
    pub fn word(&self, byte: u8, last: bool) -> u16
        ensures { result ≡ word_of last byte }
    {
        word_by(&self.bits, byte, last)
    }

    // Whether bits 0 to 8 of a word have an odd number of ones.
    pub fn odd_ones(&self, word: u16) -> bool
        ensures { result ≡ odd_ones word }
    {
        odd_ones_by(&self.bits, word)
    }
}
