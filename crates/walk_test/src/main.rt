// Walks over captures, good and damaged, with both editions of the chip, and prints what the walk answers, one line a call.
#![tactic(auto)]

mod captures;
mod damage;
mod places;
mod show;
mod walking;

use samples::edition::Edition;

fn main() {
    cases(Edition::First, Edition::Second);
    cases(Edition::Second, Edition::First);
}

fn cases(edition: Edition, other: Edition) {
    places::whole(edition);
    damage::numbers(edition);
    damage::boundaries(edition);
    damage::up_to_the_end(edition);
    damage::in_a_row(edition);
    places::middle(edition);
    places::end(edition);
    places::cut(edition);
    places::other_edition(edition, other);
}
