// Counters, clocks and the Timestamp.
use super::{given, steps};
use chip::chip::Chip;
use printing::print;

// M9.
pub fn mux_halves() {
    print::heading(b"MUX SEL's halves: odd counters on node clock, even on external");
    let mut chip = Chip::fresh();
    chip = steps::set(chip, 8, 187647121227775);
    chip = steps::read(chip, 8);
    chip = steps::set(chip, 11, 65535);
    chip = steps::node_ticks(chip, 3);
    chip = steps::external_events(chip, 65535);
    chip = steps::external_events(chip, 5);
    chip = steps::set(chip, 32, 0);
    chip = steps::timestamp_ticks(chip, 10);
    chip = steps::read(chip, 32);
    chip = steps::read(chip, 33);
    chip = steps::read(chip, 34);
    chip = steps::read(chip, 46);
    steps::read(chip, 47);
}

// Bit 37 alone: counter 5 on software, the others on slow clock.
pub fn software_events() {
    print::heading(b"Software events; disabling and clearing");
    let mut chip = Chip::fresh();
    chip = steps::set(chip, 8, 137438953472);
    chip = steps::set(chip, 37, 0);
    chip = steps::set(chip, 11, 65535);
    chip = steps::set(chip, 37, 0);
    chip = steps::set(chip, 38, 0);
    chip = steps::node_ticks(chip, 9);
    chip = steps::external_events(chip, 65535);
    chip = steps::timestamp_ticks(chip, 20);
    chip = steps::read(chip, 37);
    chip = steps::read(chip, 38);
    chip = steps::set(chip, 12, 32);
    chip = steps::set(chip, 37, 0);
    chip = steps::set(chip, 10, 65600);
    chip = steps::read(chip, 37);
    steps::read(chip, 38);
}

// M10, and document 02's Wish 2.
pub fn slow_clock() {
    print::heading(b"Slow clock: every tenth tick since the reset");
    slow_events(Chip::fresh(), 9);
    print::heading(b"Slow clock: every hundredth tick since the reset");
    slow_events(steps::hardware_reset(Chip::fresh(), true), 99);
}

// The first slow event; then many, four ticks, and one more.
fn slow_events(fresh: Chip, few: u32) {
    let mut chip = first_slow_event(fresh, few);
    chip = steps::timestamp_ticks(chip, 4294967295);
    chip = steps::read(chip, 32);
    chip = steps::timestamp_ticks(chip, 4);
    chip = steps::read(chip, 32);
    chip = steps::timestamp_ticks(chip, 1);
    chip = steps::read(chip, 32);
    chip = steps::timestamp_ticks(chip, 0);
    steps::read(chip, 2);
}

// Counter 0 enabled, ticks that are one too few for a slow event, and one more.
pub fn first_slow_event(reset: Chip, few: u32) -> Chip {
    let mut chip = steps::set(reset, 11, 1);
    chip = steps::timestamp_ticks(chip, few);
    chip = steps::read(chip, 32);
    chip = steps::timestamp_ticks(chip, 1);
    steps::read(chip, 32)
}

pub fn phase_unseen() {
    print::heading(b"The phase runs while a counter is disabled");
    let mut chip = Chip::fresh();
    chip = steps::timestamp_ticks(chip, 7);
    chip = steps::set(chip, 11, 1);
    chip = steps::timestamp_ticks(chip, 3);
    steps::read(chip, 32);
}

pub fn node_wrap() {
    print::heading(b"Counters wrap at 2^32 by node ticks");
    let mut chip = Chip::fresh();
    chip = steps::set(chip, 8, 281470681808895);
    chip = steps::set(chip, 11, 1);
    chip = steps::node_ticks(chip, 4294967295);
    chip = steps::read(chip, 32);
    chip = steps::node_ticks(chip, 1);
    chip = steps::read(chip, 32);
    chip = steps::node_ticks(chip, 4294967295);
    chip = steps::node_ticks(chip, 4294967295);
    chip = steps::read(chip, 32);
    chip = steps::read(chip, 33);
    steps::node_ticks(chip, 0);
}

// M8, by each kind: 00, 01, 10, 11.
pub fn every_kind_wraps() {
    print::heading(b"Each kind takes 4294967295 to 0, and no other kind does");
    print::text(b"slow clock\n");
    by_all_kinds(given::brimful(0, 0));
    print::text(b"external\n");
    by_all_kinds(given::brimful(0, 65535));
    print::text(b"software\n");
    by_all_kinds(given::brimful(65535, 0));
    print::text(b"node clock\n");
    by_all_kinds(given::brimful(65535, 65535));
}

// Each on the same record.
fn by_all_kinds(chip: Chip) {
    let slow = steps::timestamp_ticks(chip, 10);
    steps::read(slow, 40);
    let external = steps::external_events(chip, 256);
    steps::read(external, 40);
    let software = steps::set(chip, 40, 0);
    steps::read(software, 40);
    let node = steps::node_ticks(chip, 1);
    steps::read(node, 40);
}

pub fn timestamp_wrap() {
    print::heading(b"Timestamp wraps at 2^56");
    let mut chip = given::stamped(given::ready(), 72057594037927935);
    chip = steps::read(chip, 2);
    chip = steps::write(chip, 96, 0, 1);
    chip = steps::timestamp_ticks(chip, 1);
    chip = steps::read(chip, 2);
    chip = steps::write(chip, 96, 0, 1);
    chip = steps::sends(chip, 32);
    chip = given::stamped(chip, 72057594037927935);
    chip = steps::timestamp_ticks(chip, 4294967295);
    steps::read(chip, 2);
}

// 256 times 2^32 - 1, and 259.
pub fn forty_bits() {
    print::heading(b"A sample's Timestamp has 40 bits: 2^40 + 3 ticks give 3");
    let mut chip = given::ready();
    chip = steps::long_ticks(chip, 256);
    chip = steps::timestamp_ticks(chip, 258);
    chip = steps::read(chip, 2);
    chip = steps::timestamp_ticks(chip, 1);
    chip = steps::read(chip, 2);
    chip = steps::write(chip, 96, 0, 1);
    steps::sends(chip, 16);
}

pub fn wait_wrap() {
    print::heading(b"The Wait Counter wraps at 2^32");
    let mut chip = given::counted(given::ready(), 4294967295, 4294967295);
    chip = steps::set(chip, 1, 20);
    chip = steps::write(chip, 112, 0, 1);
    chip = steps::read(chip, 5);
    chip = steps::write(chip, 112, 0, 1);
    chip = steps::read(chip, 5);
    chip = steps::read(chip, 32);
    chip = steps::read(chip, 5);
    steps::read(chip, 6);
}

pub fn overrun_wrap() {
    print::heading(b"The Overrun Counter wraps at 2^32, its flags set");
    let mut chip = given::counted(given::discarding(), 4294967295, 4294967295);
    chip = steps::triggers(chip, 96, 8);
    chip = steps::read(chip, 6);
    chip = steps::write(chip, 96, 0, 1);
    chip = steps::read(chip, 6);
    chip = steps::read(chip, 1);
    steps::read(chip, 5);
}
