// Sending into a lent buffer of 100 places, each marked 43690 before, and by a lent table of parity bits.
use super::{given, steps};
use chip::chip::Chip;
use printing::print;
use words::parity::parities;

// How a send is named by the table that it is lent.
const OWN: &[u8] = b"send by the chip's table";

const EMPTY: &[u8] = b"send by an empty table";

const ONES: &[u8] = b"send by 256 ones";

// A Trace sample: 16 words.
fn one_held() -> Chip {
    let chip = steps::set(given::ready(), 16, 5);
    steps::write(chip, 96, 258, 1)
}

// Two Trace samples: 32 words.
fn two_held() -> Chip {
    steps::write(one_held(), 96, 259, 1)
}

pub fn lengths() {
    print::heading(b"Buffers of no place, fewer than are left, as many, and more");
    let mut chip = two_held();
    chip = steps::send_into(chip, 0);
    chip = steps::send_into(chip, 5);
    chip = steps::send(chip);
    chip = steps::send_into(chip, 19);
    chip = steps::send_into(chip, 7);
    chip = steps::send_into(chip, 4);
    chip = steps::send_into(chip, 0);
    chip = steps::send(chip);
    chip = steps::write(chip, 96, 0, 1);
    chip = steps::send_into(chip, 20);
    steps::send(chip);
}

// The same words by one buffer and by single sends.
pub fn as_single_sends() {
    print::heading(b"A buffer has the words of single sends");
    let chip = two_held();
    steps::send_into(chip, 32);
    steps::send_into(chip, 100);
    steps::sends(chip, 33);
}

pub fn resource_and_trace() {
    print::heading(b"A Resource sample and a Trace sample, in one buffer and in three");
    let mut chip = given::discarding();
    chip = steps::write(chip, 112, 0, 1);
    chip = steps::write(chip, 112, 0, 1);
    chip = steps::write(chip, 96, 0, 1);
    steps::send_into(chip, 100);
    chip = steps::send_into(chip, 79);
    chip = steps::read(chip, 1);
    chip = steps::send_into(chip, 1);
    chip = steps::read(chip, 1);
    chip = steps::send_into(chip, 100);
    steps::read(chip, 1);
}

pub fn nothing_held() {
    print::heading(b"A buffer send with nothing held");
    let chip = Chip::fresh();
    steps::send_into(chip, 0);
    steps::send_into(chip, 100);
    steps::send(chip);
}

// The plain send's words by the chip's own table; bit 8 clear in each by an empty one, and set in each by one of ones.
pub fn by_a_lent_table() {
    print::heading(b"Send by a lent table: a Trace sample held");
    let chip = one_held();
    steps::sends(chip, 16);
    steps::sends_by(chip, OWN, &parities(), 16);
    steps::sends_by(chip, EMPTY, &[], 16);
    let emptied = steps::sends_by(chip, ONES, &[1; 256], 16);
    by_each(chip);
    print::heading(b"Send by a lent table: nothing held");
    by_each(emptied);
    print::heading(b"Send by a lent table: outside, nine samples held");
    by_each(given::queued(0, 9, 0));
}

fn by_each(chip: Chip) {
    steps::send_by(chip, OWN, &parities());
    steps::send_by(chip, EMPTY, &[]);
    steps::send_by(chip, ONES, &[1; 256]);
}
