// Document 02, Wish 8: how long a trigger waits. Each of the two numbers is needed, by single sends and by buffers.
use super::{given, steps};
use chip::chip::Chip;
use printing::print;

// A Resource sample first of eight: its 80 words have to go before a Trace trigger finds room.
pub fn trace() {
    print::heading(b"A Trace trigger waits for 80 words");
    let mut chip = resource_first();
    chip = steps::sends(chip, 79);
    chip = steps::write(chip, 96, 0, 1);
    chip = steps::send(chip);
    chip = steps::write(chip, 96, 0, 1);
    chip = steps::read(chip, 5);
    steps::read(chip, 6);
}

fn resource_first() -> Chip {
    let mut chip = given::ready();
    chip = steps::write(chip, 112, 0, 1);
    chip = steps::triggers(chip, 96, 7);
    steps::write(chip, 96, 0, 1)
}

// All that may come in between: it changes neither the number nor the answer.
pub fn in_between() {
    print::heading(b"It waits no longer whatever else comes in between");
    let mut chip = other_writes(resource_first());
    chip = steps::send_into(chip, 79);
    chip = ticks_and_reads(chip);
    chip = asked_otherwise(chip);
    chip = steps::send_into(chip, 1);
    chip = steps::write(chip, 96, 5, 64);
    steps::read(chip, 6);
}

fn other_writes(before: Chip) -> Chip {
    let mut chip = steps::set(before, 5, 0);
    chip = steps::set(chip, 6, 0);
    chip = steps::set(chip, 8, 1);
    chip = steps::set(chip, 8, 0);
    chip = steps::set(chip, 10, 65535);
    chip = steps::set(chip, 11, 2);
    chip = steps::set(chip, 16, 7);
    chip = steps::set(chip, 33, 0);
    chip = steps::set(chip, 2, 0);
    chip = steps::set(chip, 3, 0);
    steps::set(chip, 128, 0)
}

fn ticks_and_reads(before: Chip) -> Chip {
    let mut chip = steps::timestamp_ticks(before, 20);
    chip = steps::node_ticks(chip, 3);
    chip = steps::external_events(chip, 2);
    chip = steps::read(chip, 33);
    chip = steps::read(chip, 1);
    steps::set(chip, 12, 2)
}

// With no active line, with two, by another line and with other data.
fn asked_otherwise(before: Chip) -> Chip {
    let mut chip = steps::write(before, 96, 0, 0);
    chip = steps::write(chip, 96, 0, 3);
    chip = steps::write(chip, 96, 5, 128);
    steps::read(chip, 5)
}

// Seven Trace samples before a Resource sample: all their words and its 80 have to go.
pub fn resource() {
    print::heading(b"A Resource trigger waits for 192 words");
    let mut chip = resource_last();
    chip = steps::sends(chip, 112);
    chip = steps::write(chip, 112, 0, 1);
    chip = steps::sends(chip, 79);
    chip = steps::write(chip, 112, 0, 1);
    chip = steps::send(chip);
    steps::write(chip, 112, 0, 1);
}

pub fn resource_by_buffers() {
    print::heading(b"The same by buffers");
    let mut chip = resource_last();
    chip = steps::send_into(chip, 100);
    chip = steps::send_into(chip, 91);
    chip = steps::write(chip, 112, 0, 1);
    chip = steps::send_into(chip, 1);
    steps::write(chip, 112, 0, 1);
}

fn resource_last() -> Chip {
    let mut chip = given::ready();
    chip = steps::triggers(chip, 96, 7);
    chip = steps::write(chip, 112, 0, 1);
    steps::write(chip, 112, 0, 1)
}

// One Resource sample alone: after its 80 words nothing is left.
pub fn nothing_left() {
    print::heading(b"A Resource trigger is taken once nothing is left to send");
    let mut chip = given::ready();
    chip = steps::write(chip, 112, 0, 1);
    chip = steps::write(chip, 112, 0, 1);
    chip = steps::sends(chip, 79);
    chip = steps::write(chip, 112, 0, 1);
    chip = steps::send(chip);
    chip = steps::send(chip);
    steps::write(chip, 112, 0, 1);
}
