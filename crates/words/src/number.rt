// A number from its bytes.
ghost use Rattle.std.specs.Prelude.{ℕ, ◌<◌, min};
ghost use Rattle.words.specs.Bytes.{IsNumberBy};

// The number of `size` bytes, low byte first, where the byte at each place is what `byte` gives there; of more than eight only those eight.
pub fn number_by<F: Fn(usize) -> u8>(size: usize, byte: F) -> u64
    requires { (place : ℕ) → place < size → F.pre byte place }
    ensures { IsNumberBy (F.post byte) (min size 8) result }
{
    let mut sum = 0;
    for place in (0..size.min(8)).rev() {
        sum = sum * 256 + byte(place) as u64;
    }
    sum
}
