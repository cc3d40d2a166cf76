// A value stored at one of a few places, for samples and registers alike.
ghost use Rattle.std.specs.Prelude.{◌≡◌, set};

use words::choice::chosen;

// The places with a value stored at one of them; past the last they stay. Every place is visited, so that the compiler keeps each by
// itself: with a computed one it copies the whole record at every operation, and without `chosen` the queue's sends take twice the time
// (docs/PERFORMANCE.md).
pub fn stored<T: Copy, const N: usize>(mut places: [T; N], at: usize, new: T) -> [T; N]
    ensures { result ≡ set places at new }
{
    for i in 0..N {
        places[i] = chosen(places[i], i == at, new);
    }
    places
}
