// Records outside each bound of reply 15, and the last ones inside.
use super::{given, steps};
use chip::chip::Chip;
use printing::print;

pub fn every_bound() {
    print::heading(b"Outside: nine samples held");
    operations(given::queued(0, 9, 0));
    print::heading(b"Outside: 16 words sent of a Trace sample");
    operations(given::queued(0, 1, 16));
    print::heading(b"Outside: 80 words sent of a Resource sample");
    operations(given::queued(8, 1, 80));
    print::heading(b"Outside: a word sent, and nothing held");
    operations(given::queued(0, 0, 1));
    print::heading(b"Outside: phase 10");
    operations(given::phased(10, false));
    print::heading(b"Outside: phase 100 at a hundredth");
    operations(given::phased(100, true));
    print::heading(b"Outside: Timestamp 2^56");
    operations(given::stamped(given::ready(), 72057594037927936));
}

// Every operation, refused ones too: 15 comes first.
fn operations(chip: Chip) {
    steps::write(chip, 0, 0, 0);
    steps::write(chip, 1, 1, 0);
    steps::write(chip, 96, 0, 1);
    steps::write(chip, 96, 0, 3);
    steps::write(chip, 200, 0, 0);
    steps::read(chip, 2);
    steps::read(chip, 3);
    steps::read(chip, 32);
    ticks_and_sends(chip);
}

fn ticks_and_sends(chip: Chip) {
    steps::timestamp_ticks(chip, 3);
    steps::timestamp_ticks(chip, 0);
    steps::node_ticks(chip, 3);
    steps::external_events(chip, 65535);
    steps::send(chip);
    steps::send_into(chip, 6);
    let reset = steps::hardware_reset(chip, false);
    steps::is_fresh(reset, 0, false);
}

pub fn largest() {
    print::heading(b"Outside: the largest of each");
    operations(given::queued(8, 18446744073709551615, 0));
    steps::read(given::queued(8, 8, 18446744073709551615), 1);
    steps::read(given::phased(255, false), 1);
    steps::read(given::phased(255, true), 1);
    steps::read(given::stamped(Chip::fresh(), 18446744073709551615), 1);
}

pub fn last_inside() {
    print::heading(b"Inside: eight held, 15 words sent of a Trace sample");
    let trace = steps::send(given::queued(0, 8, 15));
    steps::read(trace, 1);
    print::heading(b"Inside: 79 words sent of a Resource sample");
    let resource = steps::send(given::queued(8, 1, 79));
    steps::read(resource, 1);
    print::heading(b"Inside: phase 9, phases 10 and 99 at a hundredth, and Timestamp 2^56 - 1");
    steps::timestamp_ticks(given::phased(9, false), 1);
    steps::timestamp_ticks(given::phased(10, true), 0);
    steps::timestamp_ticks(given::phased(99, true), 1);
    let last = given::stamped(Chip::fresh(), 72057594037927935);
    let stamp = steps::timestamp_ticks(last, 1);
    steps::read(stamp, 2);
}
