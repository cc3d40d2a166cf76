// The writer: a sample's words into a lent buffer.
ghost use Rattle.std.specs.Prelude.{◌≡◌, false, ◌++◌, map, leb, ◌+◌, ◌≤◌, ◌^◌, length, drop};
ghost use Rattle.std.proofs.lemmas.List.Edits.{sets};
ghost use Rattle.words.specs.Bytes.{low_bytes};
ghost use Rattle.words.specs.Word.{word_of};
ghost use Rattle.samples.specs.Layout.{counter_bytes, field_bytes, field_widths, resource, sample_bytes, sample_length, sample_words, total, widths};
ghost use Rattle.samples.specs.Write.{all_zero, writable, write_answer, write_buffer, written_row};

use super::edition::{Edition, stamp_bytes, trace_bytes, user_bytes};
use super::sample::{Sample, is_resource, word_count};
use words::table::Parities;

// The first numbers above the widths of Timestamp and user data.
const TWO_40: u64 = 1 << 40;

const TWO_48: u64 = 1 << 48;

const TWO_56: u64 = 1 << 56;

// Why a sample is not written.
#[derive(Clone, Copy, PartialEq, Eq)]
pub enum WriteError {
    // A field above its width, header bits 5 to 7 set, or a Trace sample whose counters aren't all zero.
    Unfit,
    // A buffer too short.
    Short,
}

// Puts a sample's words at the buffer's start, leaves the rest, and says how many they are; a refusal leaves the whole buffer.
pub fn write(edition: Edition, sample: Sample, out: &mut [u16]) -> Result<usize, WriteError>
    ensures result_value { written_row result ≡ write_answer (widths edition) sample (length out.old) }
    ensures out_after { out.new ≡ write_buffer (widths edition) sample out.old }
{
    // Taken out first: building it and looking at the sample go on side by side.
    let table = Parities::new();
    if !can_write(edition, sample) {
        return Err(WriteError::Unfit);
    }
    let count = word_count(edition, sample.header);
    if out.len() < count {
        return Err(WriteError::Short);
    }
    fill(&table, edition, sample, count, out);
    Ok(count)
}

// Whether each field is within its width, header bits 5 to 7 are clear, and a Trace sample has no counters.
pub fn can_write(edition: Edition, sample: Sample) -> bool
    ensures { result ≡ writable (widths edition) sample }
{
    if 32 <= sample.header {
        return false;
    }
    if stamp_above(edition, sample.stamp) {
        return false;
    }
    if user_above(edition, sample.user) {
        return false;
    }
    is_resource(sample.header) || all_zero(sample.counters)
}

// Whether a Timestamp is above its width.
fn stamp_above(edition: Edition, stamp: u64) -> bool
    ensures { result ≡ leb (256 ^ (widths edition).stamp_bytes) stamp }
{
    match edition {
        Edition::First => TWO_40 <= stamp,
        Edition::Second => TWO_56 <= stamp,
    }
}

// Whether user data is above its width: no number of 64 bits is above the second edition's.
fn user_above(edition: Edition, user: u64) -> bool
    ensures { result ≡ leb (256 ^ (widths edition).user_bytes) user }
{
    match edition {
        Edition::First => TWO_48 <= user,
        Edition::Second => false,
    }
}

fn all_zero(counters: [u32; 16]) -> bool
    ensures { result ≡ all_zero counters }
{
    counters.iter().all(|counter| *counter == 0)
}

// The sample's words, from the buffer's start: every byte's, and then the end mark on the last.
fn fill(table: &Parities, edition: Edition, sample: Sample, count: usize, out: &mut [u16])
    requires count_value { count ≡ sample_length (widths edition) (resource sample.header) }
    requires count_in_bounds { count ≤ length out.old }
    ensures { out.new ≡ sample_words (widths edition) sample ++ drop count out.old }
{
    put_bytes(table, edition, sample, out);
    let last = count - 1;
    out[last] += 512;
}

// The words of a sample's bytes, unmarked.
fn put_bytes(table: &Parities, edition: Edition, sample: Sample, out: &mut [u16])
    requires header_in_bounds { sample_length (widths edition) (resource sample.header) ≤ length out.old }
    ensures { out.new ≡ sets out.old 0 (map (word_of false) (sample_bytes (widths edition) sample)) }
{
    put_fields(table, edition, sample, out);
    if is_resource(sample.header) {
        put_counters(table, sample.counters, out, trace_bytes(edition));
    }
}

// The words of the four fields that every sample has, unmarked. The longest field, the last, goes first: that is quicker where a table just
// built is looked up (docs/PERFORMANCE.md).
fn put_fields(table: &Parities, edition: Edition, sample: Sample, out: &mut [u16])
    requires edition_in_bounds { total (field_widths (widths edition)) ≤ length out.old }
    ensures { out.new ≡ sets out.old 0 (map (word_of false) (field_bytes (widths edition) sample.header sample.source sample.stamp sample.user)) }
{
    let stamp_size = stamp_bytes(edition);
    put_number(table, sample.user, user_bytes(edition), out, 5 + stamp_size);
    put_number(table, sample.stamp, stamp_size, out, 5);
    put_number(table, sample.source as u64, 4, out, 1);
    put_number(table, sample.header as u64, 1, out, 0);
}

// The words of the sixteen counters, from a place on, unmarked.
fn put_counters(table: &Parities, counters: [u32; 16], out: &mut [u16], start: usize)
    requires start_in_bounds { start + 64 ≤ length out.old }
    ensures { out.new ≡ sets out.old start (map (word_of false) (counter_bytes counters)) }
{
    for (i, counter) in counters.iter().enumerate() {
        put_number(table, *counter as u64, 4, out, start + 4 * i);
    }
}

// The words of the low bytes of a number, from a place on, unmarked.
fn put_number(table: &Parities, number: u64, size: usize, out: &mut [u16], at: usize)
    requires size_in_bounds { at + size ≤ length out.old }
    ensures { out.new ≡ sets out.old at (map (word_of false) (low_bytes size number)) }
{
    let mut rest = number;
    for i in 0..size {
        out[at + i] = table.word((rest % 256) as u8, false);
        rest /= 256;
    }
}

// The number of an answer: document 01's 17 and 18, and 0 for a written sample.
pub fn written_number(answer: Result<usize, WriteError>) -> u64
    ensures { result ≡ (written_row answer).number }
{
    match answer {
        Ok(_) => 0,
        Err(WriteError::Unfit) => 17,
        Err(WriteError::Short) => 18,
    }
}

// How many words an answer says were written; none with a refusal.
pub fn written_count(answer: Result<usize, WriteError>) -> usize
    ensures { result ≡ (written_row answer).count }
{
    answer.unwrap_or(0)
}
