// The walk over a capture, from a place on until it ends.
use super::show;
use samples::edition::Edition;
use walk::{Step, at};

// Over the first `count` words, or all of them if there are fewer.
pub fn over_first(edition: Edition, name: &[u8], words: [u16; 144], count: usize, start: usize) {
    walk_on(edition, name, &words[..count.min(144)], start);
}

// A line for each sample and each gap, and one for the end. A `loop`, since each step names the next place and the end ends it.
fn walk_on(edition: Edition, name: &[u8], capture: &[u16], start: usize) {
    let mut place = start;
    loop {
        let found = at(edition, capture, place);
        show::step(edition, name, capture.len(), place, found);
        match found {
            Step::Whole { next, .. } => place = next,
            Step::Gap(gap) => place = gap.next,
            Step::End { .. } => break,
        }
    }
}
