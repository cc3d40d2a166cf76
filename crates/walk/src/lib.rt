// The walk over a capture, which carries on after a bad word: the sample or the gap at a place, and the place after it.
#![tactic(auto)]

ghost use Rattle.std.specs.Prelude.{◌≡◌};
ghost use Rattle.samples.specs.Layout.{widths};
ghost use Rattle.walk.specs.Walk.{after_boundary, answer_at, is_boundary, told};

pub mod gap;

use gap::Gap;
use samples::edition::Edition;
use samples::reader::{Fault, read};
use samples::sample::Sample;
use words::word::{marked, too_large};

// What stands at a place of a capture.
#[derive(Clone, Copy)]
pub enum Step {
    // A sample, and the place after it.
    Whole { sample: Sample, next: usize },
    // Words that are no sample.
    Gap(Gap),
    // Too few words for a sample, all good: the walk's end. The place asked for, and the place where the good words end.
    End { place: usize, decided: usize },
}

// The sample or the gap at any place, also past the end.
pub fn at(edition: Edition, capture: &[u16], place: usize) -> Step
    ensures { told result ≡ answer_at (widths edition) capture.now place }
{
    let start = place.min(capture.len());
    match read(edition, &capture[start..]) {
        Ok(reading) => Step::Whole {
            sample: reading.sample,
            next: place + reading.count,
        },
        Err(refusal) => {
            let decided = place + refusal.place;
            match refusal.fault {
                Fault::Unfinished => Step::End { place, decided },
                fault => {
                    let next = after_boundary(capture, decided);
                    Step::Gap(Gap {
                        fault,
                        decided,
                        skipped: next - place,
                        next,
                    })
                }
            }
        }
    }
}

// The place after the first boundary from a place on, or the capture's end. Document 01 asks for a loop that gives it by `break`.
fn after_boundary(capture: &[u16], start: usize) -> usize
    ensures { result ≡ after_boundary capture.now start }
{
    let mut i = start;
    loop {
        if capture.len() <= i {
            break i;
        }
        if is_boundary(capture[i]) {
            break i + 1;
        }
        i += 1;
    }
}

// Whether a gap ends with the word.
fn is_boundary(word: u16) -> bool
    ensures { result ≡ is_boundary word }
{
    !too_large(word) && marked(word)
}
