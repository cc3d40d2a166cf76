// Runs the writer, the reader and the queue on document 01's cases, the reader on damage at every place of a sample too, for both editions of
// the chip, and the table of parity bits that they go by, and prints what they give, one line a case.
#![tactic(auto)]

mod damage;
mod given;
mod places;
mod reading;
mod sending;
mod show;
mod stream;
mod tables;
mod writing;

use samples::edition::Edition;

fn main() {
    cases(Edition::First);
    cases(Edition::Second);
    edges(Edition::First, Edition::Second);
    edges(Edition::Second, Edition::First);
    sending::sent(Edition::First);
    sending::sent(Edition::Second);
    tables::parity_table();
    tables::other_tables();
}

// Each answer of the writer and of the reader.
fn cases(edition: Edition) {
    writing::marked_example(edition);
    writing::accepted(edition);
    writing::unfit(edition);
    writing::short(edition);
    writing::unfit_and_short(edition);
    reading::whole(edition);
    reading::unfinished(edition);
    reading::too_large(edition);
    reading::parity(edition);
    reading::header(edition);
    reading::mark(edition);
    reading::two_faults(edition);
    reading::first_fault(edition);
    damage::every_place(edition, b"Trace, ", false);
    damage::every_place(edition, b"Resource, ", true);
    stream::several(edition);
}

// Where a field ends and the next begins, and where one edition's sample ends and the other's doesn't.
fn edges(edition: Edition, other: Edition) {
    writing::alone(edition);
    writing::resource_refused(edition);
    reading::borders(edition);
    reading::other_edition(edition, other);
    places::counts(edition);
    places::bytes(edition, b"Trace places", 19, false);
    places::bytes(edition, b"Resource places", 27, true);
}
