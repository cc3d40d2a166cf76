// A saved set: the sixteen counters and their three control registers, in 88 bytes.
ghost use Rattle.std.specs.Prelude.{◌≡◌, map, leb, get_or, is_ok, length, ◌≤◌, ◌<◌, ◌^◌};
ghost use Rattle.words.specs.Word.{byte_of};
ghost use Rattle.samples.specs.Layout.{counter_widths};
ghost use Rattle.samples.specs.Read.{gather};
ghost use Rattle.saved.specs.Saved.{number_from, saved_bytes, saved_into, set_of};

use counters::bank::each_value;
use counters2::fields::Fields;
use samples::sample::counter_byte;
use words::byte::byte_at;
use words::number::number_by;

// Wide parts first: no padding (88 bytes).
#[derive(Clone, Copy, PartialEq, Eq)]
pub struct Saved {
    pub fields: Fields,
    pub values: [u32; 16],
}

// Why a set isn't put: the buffer is too short for it.
#[derive(Clone, Copy, PartialEq, Eq)]
pub struct Short;

// Puts a set at the start of a buffer that has room for it and leaves the rest; a shorter one it leaves all.
pub fn put(set: Saved, out: &mut [u8]) -> Result<(), Short>
    ensures value { is_ok result ≡ leb 88 (length out.old) }
    ensures out_after { out.new ≡ saved_into set out.old }
{
    if out.len() < 88 {
        return Err(Short);
    }
    for i in 0..88 {
        out[i] = byte_of(set, i);
    }
    Ok(())
}

// The byte at a place of a set, and 0 past its end.
fn byte_of(set: Saved, place: usize) -> u8
    ensures { result ≡ get_or (saved_bytes set) place 0 }
{
    if place < 64 {
        return counter_byte(set.values, place);
    }
    if place < 72 {
        return byte_at(set.fields.enable, place - 64);
    }
    if place < 80 {
        return byte_at(set.fields.mode, place - 72);
    }
    byte_at(set.fields.select, place - 80)
}

// The set that bytes give; where fewer than 88 are there, the others count as zero.
pub fn set_of(bytes: &[u8]) -> Saved
    ensures { result ≡ set_of bytes.now }
{
    let fields = Fields {
        enable: number_at(bytes, 64, 8),
        mode: number_at(bytes, 72, 8),
        select: number_at(bytes, 80, 8),
    };
    Saved {
        fields,
        values: counters_of(bytes),
    }
}

// The sixteen counters.
fn counters_of(bytes: &[u8]) -> [u32; 16]
    ensures { result ≡ gather counter_widths (map byte_of bytes.now) }
{
    each_value([0; 16], |i, _| number_at(bytes, 4 * i, 4) as u32)
}

// The number of `size` bytes from `start` on, low byte first.
fn number_at(bytes: &[u8], start: usize, size: usize) -> u64
    requires { (start ≤ 80) × (size ≤ 8) }
    ensures value { result ≡ number_from size start bytes.now }
    ensures upper_bound { result < 256 ^ size }
{
    number_by(size, |place| byte_or_zero(bytes, start + place))
}

// The byte at a place, and 0 past the end.
fn byte_or_zero(bytes: &[u8], place: usize) -> u8
    ensures { result ≡ get_or (map byte_of bytes.now) place 0 }
{
    if place < bytes.len() { bytes[place] } else { 0 }
}
