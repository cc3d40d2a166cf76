// The address map, and what each register keeps.
use super::addresses::sweep;
use super::{given, steps};
use chip::chip::Chip;
use printing::print;

pub fn every_address() {
    print::heading(b"Every address, read on a fresh chip");
    sweep(b"read", Chip::fresh(), 0..256, |chip, at| chip.read(at));
    print::heading(b"Every address, written on a fresh chip with data 21 and lines 1");
    sweep(b"write", Chip::fresh(), 0..256, |chip, at| {
        chip.write(at, 21, 1)
    });
    print::heading(b"Every address, read where each register has its own number");
    sweep(b"read", given::numbered(), 0..49, |chip, at| chip.read(at));
}

pub fn large_addresses() {
    print::heading(b"Large addresses do not wrap");
    let mut chip = Chip::fresh();
    chip = steps::read(chip, 256);
    chip = steps::read(chip, 257);
    chip = steps::read(chip, 4294967296);
    chip = steps::read(chip, 18446744073709551615);
    chip = steps::write(chip, 256, 1, 1);
    chip = steps::write(chip, 257, 1, 1);
    chip = steps::write(chip, 4294967296, 1, 1);
    chip = steps::write(chip, 4294967297, 1, 1);
    chip = steps::write(chip, 18446744073709551615, 1, 1);
    steps::read(chip, 1);
}

pub fn every_line() {
    print::heading(b"Every set of lines, at 96 on a fresh chip");
    sweep(b"lines", Chip::fresh(), 0..256, |chip, at| {
        chip.write(96, 0, (at % 256) as u8)
    });
    print::heading(b"Every set of lines, at 112 with sampling and level 0 on");
    sweep(b"lines", given::ready(), 0..256, |chip, at| {
        chip.write(112, 0, (at % 256) as u8)
    });
    print::heading(b"Lines count only for 96 to 127: two lines, with sampling and level 0 on");
    sweep(b"write", given::ready(), 0..130, |chip, at| {
        chip.write(at, 21, 3)
    });
}

pub fn every_level() {
    print::heading(b"Filter 32769: only levels 0 and 15 pass");
    sweep(b"write", given::filtering(32769), 95..129, |chip, at| {
        chip.write(at, 0, 1)
    });
}

// Bits beyond a register's width.
pub fn widths() {
    print::heading(b"Registers keep their width");
    let mut chip = Chip::fresh();
    chip = steps::set(chip, 4, 18446744073709551615);
    chip = steps::read(chip, 4);
    chip = steps::set(chip, 8, 18446744073709551615);
    chip = steps::read(chip, 8);
    chip = steps::set(chip, 16, 18446744073709551615);
    chip = steps::read(chip, 16);
    chip = steps::read(chip, 17);
    chip = steps::set(chip, 23, 4294967303);
    chip = steps::read(chip, 23);
    steps::read(chip, 22);
}

pub fn enabled_set() {
    print::heading(b"Enabled set: only bits 0 to 15 act");
    let mut chip = Chip::fresh();
    chip = steps::set(chip, 11, 65536);
    chip = steps::set(chip, 11, 327683);
    chip = steps::read(chip, 11);
    chip = steps::set(chip, 11, 8);
    chip = steps::read(chip, 11);
    chip = steps::set(chip, 12, 65537);
    chip = steps::read(chip, 11);
    chip = steps::set(chip, 12, 18446744073709551615);
    steps::read(chip, 11);
}

pub fn csr() {
    print::heading(b"CSR settings go by pairs");
    let mut chip = steps::read(Chip::fresh(), 1);
    chip = steps::set(chip, 1, 8);
    chip = steps::read(chip, 1);
    chip = steps::set(chip, 1, 1);
    chip = steps::read(chip, 1);
    chip = steps::set(chip, 1, 4);
    chip = steps::read(chip, 1);
    chip = steps::set(chip, 1, 16);
    chip = steps::read(chip, 1);
    chip = steps::set(chip, 1, 18446744073709551552);
    chip = steps::set(chip, 1, 2);
    chip = steps::read(chip, 1);
    csr_off(chip);
}

fn csr_off(before: Chip) {
    let mut chip = steps::set(before, 1, 8);
    chip = steps::read(chip, 1);
    chip = steps::set(chip, 1, 32);
    chip = steps::read(chip, 1);
    chip = steps::set(chip, 1, 21);
    chip = steps::read(chip, 1);
    chip = steps::set(chip, 1, 63);
    steps::read(chip, 1);
}
