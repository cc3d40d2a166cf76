// One byte of a number.
ghost use Rattle.std.specs.Prelude.{◌≡◌};
ghost use Rattle.words.specs.Bytes.{byte_at};

// The byte at `place`, counted from the low end; past the eighth it is 0, as the number's own.
pub fn byte_at(number: u64, place: usize) -> u8
    ensures { result ≡ byte_at number place }
{
    if place < 8 {
        ((number >> (place * 8)) % 256) as u8
    } else {
        0
    }
}
