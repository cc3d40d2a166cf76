// What each event does to the sixteen counters.
ghost use Rattle.std.specs.Prelude.{◌≡◌, ℕ, ◌<◌, ◌+◌, ◌/◌, ◌^◌, ◌&&◌, ◌||◌, if◌then◌else◌};
ghost use Rattle.counters2.specs.Clocks.{selected};
ghost use Rattle.counters2.specs.Codes.{by_clock, by_external, by_software, enabled, source_of, while_high};
ghost use Rattle.counters2.specs.Counts.{counted, enable_of, fired, loaded, mode_of, restarted, select_of, signalled, ticked, upper};

use super::clocks::Clocks;
use super::fields::{Fields, field};
use counters::bank::{Bank, each_value};
use words::choice::chosen;

const TWO_32: u64 = 1 << 32;

// What a counter can count: by the low three bits of its Mode field.
#[derive(Clone, Copy, PartialEq, Eq)]
pub enum Source {
    Nothing,
    Clock,
    Software,
    ClockWhileHigh,
    External,
}

// Ticks of the clocks, with the external lines that are high during all of them.
pub fn ticked(bank: Bank, f: Fields, lines: u16, clocks: Clocks) -> Bank
    ensures { result ≡ ticked f lines clocks bank }
{
    counted(
        bank,
        f.mode,
        |i| ticks_for(f, i, (lines >> i) % 2 == 1, clocks),
    )
}

// One external event for each set bit.
pub fn signalled(bank: Bank, f: Fields, mask: u16) -> Bank
    ensures { result ≡ signalled f mask bank }
{
    // All of them before the first counter grows, for speed (docs/PERFORMANCE.md).
    let hits = each_value([0; 16], |i, _| signals_for(f, i, (mask >> i) % 2 == 1));
    counted(bank, f.mode, |i| hits[i])
}

// A software event for one counter.
pub fn fired(bank: Bank, f: Fields, index: usize) -> Bank
    ensures { result ≡ fired f index bank }
{
    counted(bank, f.mode, |i| {
        if i == index { software_for(f, i) } else { 0 }
    })
}

// The counters whose field of Enable's data says so become zero.
pub fn restarted(mut bank: Bank, bits: u64) -> Bank
    ensures { result ≡ restarted bits bank }
{
    bank.values = each_value(bank.values, |i, v| {
        if field(bits, i) % 4 == 3 { 0 } else { v }
    });
    bank
}

// One counter takes a number.
pub fn loaded(mut bank: Bank, index: usize, number: u32) -> Bank
    ensures { result ≡ loaded index number bank }
{
    if index < 16 {
        bank.values[index] = number;
    }
    bank
}

// The counters after their own events, and a pair's upper half after the lower one's wraps.
fn counted<F: Fn(usize) -> u32>(mut bank: Bank, mode: u64, own: F) -> Bank
    requires { (i : ℕ) → i < 16 → F.pre own i }
    ensures { (f : ℕ → ℕ) → ((i r : ℕ) → i < 16 → F.post own i r → r ≡ f i) → result ≡ counted mode f bank }
{
    let mut values = bank.values;
    let mut carry: u32 = 0;
    for i in 0..16 {
        let events = own(i);
        let old = values[i];
        values[i] = old.wrapping_add(chosen(events, upper(mode, i), carry));
        carry = wraps(old, events);
    }
    bank.values = values;
    bank
}

// How often a counter wraps as it grows.
fn wraps(old: u32, events: u32) -> u32
    ensures { result ≡ (old + events) / 2 ^ 32 }
{
    ((old as u64 + events as u64) / TWO_32) as u32
}

// Whether a counter is a pair's upper half.
fn upper(mode: u64, i: usize) -> bool
    ensures { result ≡ upper mode i }
{
    (i % 2 == 1) && (8 <= field(mode, i - 1))
}

// How many ticks count for a counter, whose line is high or not.
fn ticks_for(f: Fields, i: usize, high: bool, clocks: Clocks) -> u32
    ensures { result ≡ (if enabled (enable_of f i) && (by_clock (mode_of f i) || (while_high (mode_of f i) && high)) then selected (select_of f i) clocks else 0) }
{
    let due = match source_at(f, i) {
        Source::Clock => true,
        Source::ClockWhileHigh => high,
        _ => false,
    };
    if due {
        clocks.selected(field(f.select, i) % 8)
    } else {
        0
    }
}

// Whether an external event on its line counts for a counter: 1 or 0.
fn signals_for(f: Fields, i: usize, hit: bool) -> u32
    ensures { result ≡ (if enabled (enable_of f i) && (by_external (mode_of f i) && hit) then 1 else 0) }
{
    u32::from(is_enabled(f, i) & (source_of(field(f.mode, i) % 8) == Source::External) & hit)
}

// Whether a software event counts for a counter: 1 or 0.
fn software_for(f: Fields, i: usize) -> u32
    ensures { result ≡ (if enabled (enable_of f i) && by_software (mode_of f i) then 1 else 0) }
{
    u32::from(source_at(f, i) == Source::Software)
}

// What a counter counts, as its fields say: nothing while it isn't enabled.
fn source_at(f: Fields, i: usize) -> Source
    ensures { result ≡ (if enabled (enable_of f i) then source_of (mode_of f i) else Source.Nothing) }
{
    if !is_enabled(f, i) {
        return Source::Nothing;
    }
    source_of(field(f.mode, i) % 8)
}

// What the low three bits of a Mode field say.
fn source_of(mode: u64) -> Source
    ensures { result ≡ source_of mode }
{
    match mode {
        1 | 5 => Source::Clock,
        2 | 6 => Source::Software,
        3 | 7 => Source::ClockWhileHigh,
        4 => Source::External,
        _ => Source::Nothing,
    }
}

fn is_enabled(f: Fields, i: usize) -> bool
    ensures { result ≡ enabled (enable_of f i) }
{
    let enable = field(f.enable, i) % 4;
    (enable == 2) | (enable == 3)
}
