// Resets, also in the middle of a sample.
use super::counting::first_slow_event;
use super::queueing::ninth_waits;
use super::{given, steps};
use chip::chip::Chip;
use printing::print;

// A chip with something in each part: registers, counters, shadows, phase 7, samples half sent, flags and the lost mark.
fn used() -> Chip {
    let mut chip = given::numbered();
    chip = steps::set(chip, 4, 1);
    chip = steps::set(chip, 1, 36);
    chip = steps::timestamp_ticks(chip, 7);
    chip = steps::write(chip, 112, 5, 1);
    chip = steps::write(chip, 112, 5, 1);
    chip = steps::set(chip, 1, 8);
    chip = steps::write(chip, 112, 5, 1);
    steps::sends(chip, 3)
}

pub fn software_reset() {
    print::heading(b"Software reset, a sample half sent");
    let mut chip = used();
    chip = steps::set(chip, 0, 18446744073709551615);
    steps::is_fresh(chip, 1009, false);
    chip = steps::send(chip);
    chip = steps::read(chip, 2);
    chip = steps::set(chip, 1, 1);
    chip = steps::set(chip, 4, 1);
    chip = steps::write(chip, 96, 0, 1);
    steps::sends(chip, 17);
}

// The phase begins anew: 7 ticks before the reset don't count.
pub fn phase_after_reset() {
    print::heading(b"Software reset clears the phase");
    let mut chip = Chip::fresh();
    chip = steps::timestamp_ticks(chip, 7);
    chip = steps::set(chip, 0, 0);
    chip = first_slow_event(chip, 9);
    steps::read(chip, 2);
}

pub fn hardware_reset() {
    print::heading(b"Hardware reset, a sample half sent");
    let mut chip = used();
    chip = steps::hardware_reset(chip, false);
    steps::is_fresh(chip, 0, false);
    chip = steps::send(chip);
    steps::hardware_reset(chip, false);
}

// Document 02, Wish 7: sampling, discard and read wait were chosen before each reset.
pub fn wait_after_reset() {
    print::heading(b"Either reset sets write wait, and turns sampling and read wait off");
    let mut chip = steps::set(Chip::fresh(), 1, 25);
    chip = steps::read(chip, 1);
    ninth_waits(steps::set(chip, 0, 0));
    ninth_waits(steps::hardware_reset(chip, false));
    ninth_waits(steps::hardware_reset(chip, true));
}

// Document 02, Wish 2: each hardware reset chooses anew. A software reset keeps the choice, whatever its data, and clears the phase: were that
// kept, the 99 and the 9 ticks behind it would make an event.
pub fn speeds() {
    print::heading(b"A hardware reset chooses the slow clock's speed, a software reset keeps it");
    let mut chip = used();
    chip = steps::hardware_reset(chip, true);
    steps::is_fresh(chip, 0, true);
    chip = steps::timestamp_ticks(chip, 95);
    chip = steps::set(chip, 0, 0);
    steps::is_fresh(chip, 95, true);
    chip = first_slow_event(chip, 99);
    chip = steps::hardware_reset(chip, true);
    steps::is_fresh(chip, 0, true);
    chip = steps::hardware_reset(chip, false);
    steps::is_fresh(chip, 0, false);
    chip = steps::timestamp_ticks(chip, 5);
    chip = steps::set(chip, 0, 1);
    steps::is_fresh(chip, 5, false);
    first_slow_event(chip, 9);
}
