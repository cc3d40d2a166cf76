// A damage at each place of a sample in turn: what the reader answers, and where it stopped.
ghost use Rattle.std.specs.Prelude.{◌≤◌, ◌<◌};

use super::{given, show};
use printing::print;
use samples::edition::Edition;
use samples::reader::{Reading, Refusal, read};

// The bits that a damage flips in the word at its place.
const ABOVE: u16 = 1024;

const MARK: u16 = 512;

const PARITY: u16 = 256;

// Bit 5, which no header has, and the parity bit with it, so that the parity stays good.
const HEADER: u16 = 256 + 32;

// Bit 5 alone, so that the parity is bad too.
const ALL: u16 = 1024 + 512 + 32;

// What the part has after the place.
#[derive(Clone, Copy)]
enum Rest {
    // The sample's other words.
    Good,
    // As many words, each above 1023.
    Bad,
    // The sample's other words, and after them words above 1023, a hundred in all.
    Longer,
    // Nothing, and nothing at the place: the part ends before it.
    Missing,
}

// A damage to a Trace or a Resource sample.
#[derive(Clone, Copy)]
struct Damage {
    edition: Edition,
    resource: bool,
    bits: u16,
    rest: Rest,
}

// The damages to a Trace or a Resource sample.
pub fn every_place(edition: Edition, kind: &[u8], resource: bool) {
    let case = |name: &[u8], bits: u16, rest: Rest| {
        show::case(b"damage ", edition, kind);
        print::text(name);
        line(Damage {
            edition,
            resource,
            bits,
            rest,
        });
    };
    case(b"above 1023", ABOVE, Rest::Good);
    case(b"parity", PARITY, Rest::Good);
    case(b"header bit 5", HEADER, Rest::Good);
    case(b"end mark", MARK, Rest::Good);
    case(b"parity and every later word", PARITY, Rest::Bad);
    case(b"all at once", ALL, Rest::Good);
    case(b"cut", 0, Rest::Missing);
    // What stands behind the sample isn't looked at, and changes nothing.
    case(b"above 1023, of 100 words", ABOVE, Rest::Longer);
    case(b"parity, of 100 words", PARITY, Rest::Longer);
    case(b"end mark, of 100 words", MARK, Rest::Longer);
}

// The answers, the counts and the places, in the order of the damaged places.
fn line(damage: Damage) {
    print::text(b": answers");
    damage.each(show::number);
    print::text(b", counts");
    damage.each(show::count);
    print::text(b", places");
    damage.each(show::place);
    print::text(b"\n");
}

impl Damage {
    // A number of each place's reading.
    fn each<F: Fn(Result<Reading, Refusal>) -> u64>(self, number: F)
        requires { F.IsAlwaysCallable number }
    {
        let mut run = print::no_run();
        for place in 0..self.places() {
            run = print::add(run, number(self.reading(place)));
        }
        print::end(run);
    }

    // A part may also end after the sample's last word, and is whole then.
    fn places(self) -> usize
        ensures { result ≤ 85 }
    {
        let length = given::length(self.edition, self.resource);
        match self.rest {
            Rest::Missing => length + 1,
            _ => length,
        }
    }

    // What is read with the damage at a place.
    fn reading(self, place: usize) -> Result<Reading, Refusal>
        requires { place < 100 }
    {
        let words = given::words(self.edition, self.resource);
        let length = given::length(self.edition, self.resource);
        match self.rest {
            Rest::Good => self.first(damaged(words, self.bits, place, length), length),
            Rest::Bad => self.first(damaged(words, self.bits, place, place + 1), length),
            Rest::Longer => self.first(damaged(words, self.bits, place, length), 100),
            Rest::Missing => self.first(words, place),
        }
    }

    // What is read of the first `count` words.
    fn first(self, words: [u16; 100], count: usize) -> Result<Reading, Refusal>
        requires { count ≤ 100 }
    {
        read(self.edition, &words[..count])
    }
}

// The words with bits flipped at a place, and words above 1023 from a later one on.
fn damaged(mut words: [u16; 100], bits: u16, place: usize, later: usize) -> [u16; 100]
    requires { (place < 100) × (later ≤ 100) }
{
    words[place] ^= bits;
    words[later..].fill(65535);
    words
}
