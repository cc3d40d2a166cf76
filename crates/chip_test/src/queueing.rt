// Triggers, the queue, the shadows and the words.
use super::{given, steps};
use chip::chip::Chip;
use printing::print;

pub fn listing_b() {
    print::heading(b"Listing B, then the rest of its words");
    let mut chip = Chip::fresh();
    chip = steps::set(chip, 1, 1);
    chip = steps::set(chip, 4, 1);
    chip = steps::set(chip, 16, 5);
    chip = steps::timestamp_ticks(chip, 3);
    chip = steps::write(chip, 96, 258, 1);
    chip = steps::send(chip);
    chip = steps::send(chip);
    chip = steps::write(chip, 97, 0, 1);
    chip = steps::read(chip, 2);
    chip = steps::read(chip, 3);
    chip = steps::sends(chip, 14);
    steps::send(chip);
}

// 4, then 6, then 7, each where the later ones hold too.
pub fn order_of_refusals() {
    print::heading(b"4 before 6, 6 before 7, 7 before 8 and 10");
    let mut chip = Chip::fresh();
    chip = steps::write(chip, 96, 0, 0);
    chip = steps::write(chip, 96, 0, 3);
    chip = steps::write(chip, 96, 0, 1);
    chip = steps::set(chip, 1, 9);
    chip = steps::write(chip, 96, 0, 3);
    chip = steps::write(chip, 96, 0, 1);
    chip = steps::set(chip, 4, 1);
    chip = steps::triggers(chip, 96, 8);
    chip = steps::write(chip, 96, 0, 3);
    chip = steps::write(chip, 97, 0, 1);
    chip = steps::set(chip, 1, 4);
    chip = steps::write(chip, 97, 0, 1);
    chip = steps::set(chip, 1, 2);
    steps::write(chip, 96, 0, 1);
}

// M6.
pub fn last_word_frees() {
    print::heading(b"A place is free with its sample's last word, not its first");
    let mut chip = given::discarding();
    chip = steps::triggers(chip, 96, 8);
    chip = steps::write(chip, 96, 0, 1);
    chip = steps::read(chip, 6);
    chip = steps::read(chip, 1);
    chip = steps::send(chip);
    chip = steps::write(chip, 96, 0, 1);
    chip = steps::sends(chip, 14);
    chip = steps::write(chip, 96, 0, 1);
    chip = steps::send(chip);
    chip = steps::read(chip, 1);
    chip = steps::write(chip, 96, 0, 1);
    chip = steps::read(chip, 6);
    chip = steps::sends(chip, 112);
    steps::sends(chip, 17);
}

// M7, and the shadows to the last word.
pub fn shadows_busy() {
    print::heading(b"A Resource sample keeps the shadows to its last word");
    let mut chip = given::discarding();
    chip = steps::write(chip, 112, 0, 1);
    chip = steps::write(chip, 112, 0, 1);
    chip = steps::read(chip, 1);
    chip = steps::read(chip, 6);
    chip = steps::write(chip, 96, 0, 1);
    chip = steps::sends(chip, 79);
    chip = steps::read(chip, 32);
    chip = steps::write(chip, 112, 0, 1);
    chip = steps::send(chip);
    chip = steps::read(chip, 1);
    chip = steps::read(chip, 32);
    chip = steps::write(chip, 112, 0, 1);
    chip = steps::sends(chip, 16);
    steps::sends(chip, 81);
}

pub fn both_reasons() {
    print::heading(b"Both reasons: one loss, both flags; address 6 keeps the lost mark");
    let mut chip = given::discarding();
    chip = steps::write(chip, 112, 0, 1);
    chip = steps::triggers(chip, 96, 7);
    chip = steps::read(chip, 1);
    chip = steps::write(chip, 112, 0, 1);
    chip = steps::read(chip, 6);
    chip = steps::read(chip, 1);
    chip = steps::write(chip, 96, 0, 1);
    chip = steps::read(chip, 6);
    chip = steps::set(chip, 6, 0);
    chip = steps::read(chip, 6);
    chip = steps::read(chip, 1);
    chip = steps::sends(chip, 80);
    chip = steps::write(chip, 96, 0, 1);
    chip = steps::sends(chip, 112);
    steps::sends(chip, 17);
}

// Document 02, Wish 7: no CSR bit is written but sampling's.
pub fn wait_by_default() {
    print::heading(b"Wait by default: a fresh chip's ninth trigger");
    ninth_waits(Chip::fresh());
}

// Sampling and level 0 on, then nine Trace triggers; the ninth again when there is room. Its header has no lost mark.
pub fn ninth_waits(reset: Chip) {
    let mut chip = steps::read(reset, 1);
    chip = steps::set(chip, 1, 1);
    chip = steps::set(chip, 4, 1);
    chip = steps::triggers(chip, 96, 8);
    chip = steps::write(chip, 96, 0, 1);
    chip = steps::read(chip, 5);
    chip = steps::read(chip, 6);
    chip = steps::read(chip, 1);
    chip = steps::sends(chip, 16);
    chip = steps::write(chip, 96, 0, 1);
    chip = steps::sends(chip, 112);
    steps::sends(chip, 17);
}

pub fn write_wait() {
    print::heading(b"Write wait: 10 and no loss");
    let mut chip = given::ready();
    chip = steps::write(chip, 112, 0, 1);
    chip = steps::write(chip, 112, 0, 1);
    chip = steps::triggers(chip, 96, 7);
    chip = steps::write(chip, 96, 0, 1);
    chip = steps::write(chip, 112, 0, 1);
    chip = steps::read(chip, 5);
    chip = steps::read(chip, 6);
    chip = steps::read(chip, 1);
    chip = steps::sends(chip, 80);
    chip = steps::write(chip, 96, 0, 1);
    steps::sends(chip, 129);
}

pub fn read_wait() {
    print::heading(b"Read wait: 10 or 11 while the shadows are busy");
    let mut chip = given::ready();
    chip = steps::set(chip, 1, 16);
    chip = steps::write(chip, 112, 0, 1);
    chip = steps::read(chip, 32);
    chip = steps::read(chip, 47);
    chip = steps::read(chip, 5);
    chip = steps::set(chip, 5, 0);
    chip = steps::read(chip, 5);
    chip = steps::set(chip, 1, 32);
    chip = steps::read(chip, 32);
    chip = steps::read(chip, 47);
    steps::read(chip, 5);
}

pub fn lines_and_sources() {
    print::heading(b"A sample has its line's number and that line's Source Address");
    let mut chip = given::ready();
    chip = steps::set(chip, 17, 17);
    chip = steps::set(chip, 23, 23);
    chip = steps::write(chip, 96, 0, 2);
    chip = steps::write(chip, 96, 18446744073709551615, 128);
    chip = steps::sends(chip, 16);
    steps::sends(chip, 16);
}

// Counters, Source Address and Timestamp change between the trigger and the sends.
pub fn fixed_at_trigger() {
    print::heading(b"A sample's fields and counters are those at its trigger");
    let mut chip = given::ready();
    chip = steps::set(chip, 8, 281470681808895);
    chip = steps::set(chip, 11, 65535);
    chip = steps::node_ticks(chip, 5);
    chip = steps::write(chip, 112, 258, 1);
    chip = steps::node_ticks(chip, 7);
    chip = steps::set(chip, 16, 9);
    chip = steps::timestamp_ticks(chip, 4);
    chip = steps::sends(chip, 40);
    chip = steps::node_ticks(chip, 1);
    chip = steps::sends(chip, 40);
    chip = steps::read(chip, 32);
    chip = steps::write(chip, 112, 0, 1);
    steps::sends(chip, 81);
}

// A counter read copies too, but a busy shadow is kept from it.
pub fn kept_from_reads() {
    print::heading(b"A refused counter read and a lost trigger leave the shadows");
    let mut chip = given::discarding();
    chip = steps::set(chip, 8, 281470681808895);
    chip = steps::set(chip, 11, 32768);
    chip = steps::node_ticks(chip, 5);
    chip = steps::write(chip, 112, 0, 1);
    chip = steps::node_ticks(chip, 7);
    chip = steps::read(chip, 47);
    chip = steps::write(chip, 112, 0, 1);
    chip = steps::write(chip, 96, 0, 1);
    steps::sends(chip, 80);
}
