// A gap of a capture.
ghost use Rattle.std.specs.Prelude.{◌≢◌};
ghost use Rattle.samples.specs.declared.reader.Fault.TheVariants.{Unfinished};

use samples::reader::Fault;

// Words that are no sample: what is wrong with their bad word.
#[derive(Clone, Copy)]
pub struct Gap {
    pub fault: Fault,
    // The bad word's place.
    pub decided: usize,
    // How many words there are.
    pub skipped: usize,
    // The place after them.
    pub next: usize,
    // Unfinished words are the walk's end, and no gap.
    pub ghost bad_word: { fault ≢ Unfinished },
}
