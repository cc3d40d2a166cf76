// The chip's operations, each with a line of what was asked, the reply, the value, and whether the record is the same.
use chip::chip::Chip;
use control::answer::Answer;
use printing::print;

// The mark that a buffer is filled with before it is lent.
const MARK: u16 = 43690;

// Says whether an operation left the record as it was.
pub fn tell(same: bool) {
    if same {
        print::text(b" same");
    } else {
        print::text(b" changed");
    }
}

// The reply, the value and the record: the next chip.
fn told(before: Chip, answer: Answer<Chip>) -> Chip {
    print::field(b": ", answer.reply.number());
    print::field(b" ", answer.value);
    tell(before == answer.chip);
    answer.chip
}

fn line(before: Chip, answer: Answer<Chip>) -> Chip {
    let next = told(before, answer);
    print::text(b"\n");
    next
}

pub fn hardware_reset(chip: Chip, hundredth: bool) -> Chip {
    print::text(b"hardware reset");
    name_speed(hundredth);
    line(chip, chip.hardware_reset(hundredth))
}

// The slow clock's speed is named where it isn't a fresh chip's.
fn name_speed(hundredth: bool) {
    if hundredth {
        print::text(b" at a hundredth");
    }
}

pub fn write(chip: Chip, address: u64, bits: u64, lines: u8) -> Chip {
    print::field(b"write ", address);
    print::field(b" data ", bits);
    print::field(b" lines ", u64::from(lines));
    line(chip, chip.write(address, bits, lines))
}

// A write that the processor lines don't matter for.
pub fn set(chip: Chip, address: u64, bits: u64) -> Chip {
    write(chip, address, bits, 0)
}

pub fn read(chip: Chip, address: u64) -> Chip {
    print::field(b"read ", address);
    line(chip, chip.read(address))
}

pub fn timestamp_ticks(chip: Chip, count: u32) -> Chip {
    print::field(b"Timestamp ticks ", u64::from(count));
    line(chip, chip.timestamp_ticks(count))
}

pub fn node_ticks(chip: Chip, count: u32) -> Chip {
    print::field(b"node ticks ", u64::from(count));
    line(chip, chip.node_ticks(count))
}

pub fn external_events(chip: Chip, mask: u16) -> Chip {
    print::field(b"external events ", u64::from(mask));
    line(chip, chip.external_events(mask))
}

pub fn send(chip: Chip) -> Chip {
    print::text(b"send");
    line(chip, chip.send())
}

// A send by a lent table of parity bits, which is named.
pub fn send_by(chip: Chip, name: &[u8], table: &[u8]) -> Chip {
    print::text(name);
    line(chip, chip.send_by(table))
}

// The first `room` places of a buffer of 100 are lent, or all of them; the line has the whole buffer.
pub fn send_into(chip: Chip, room: usize) -> Chip {
    let mut buffer = [MARK; 100];
    let size = room.min(100);
    let answer = chip.send_into(&mut buffer[..size]);
    print::field(b"send into ", size as u64);
    let next = told(chip, answer);
    print::text(b", buffer");
    print::words(&buffer);
    print::text(b"\n");
    next
}

// Single sends one after another, and their words; a refused one would show as the word 0.
pub fn sends(chip: Chip, count: u64) -> Chip {
    print::text(b"send ");
    times(chip, count, |chip| chip.send(), |answer| answer.value)
}

pub fn sends_by(chip: Chip, name: &[u8], table: &[u8], count: u64) -> Chip {
    print::text(name);
    print::text(b" ");
    times(
        chip,
        count,
        |chip| chip.send_by(table),
        |answer| answer.value,
    )
}

// The same trigger some times by line 0, and the replies.
pub fn triggers(chip: Chip, address: u64, count: u64) -> Chip {
    print::field(b"write ", address);
    print::text(b" data 0 lines 1, ");
    times(
        chip,
        count,
        |chip| chip.write(address, 0, 1),
        |answer| answer.reply.number(),
    )
}

// A step some times, and a number of each answer; equal ones are a run.
fn times<F: Fn(Chip) -> Answer<Chip>, G: Fn(Answer<Chip>) -> u64>(
    chip: Chip,
    count: u64,
    step: F,
    shown: G,
) -> Chip
    requires step_runs { F.IsAlwaysCallable step }
    requires shown_runs { G.IsAlwaysCallable shown }
{
    print::number(count);
    print::text(b" times:");
    let mut state = chip;
    let mut run = print::no_run();
    for _ in 0..count {
        let answer = step(state);
        state = answer.chip;
        run = print::add(run, shown(answer));
    }
    print::end(run);
    print::text(b"\n");
    state
}

// The largest count of Timestamp ticks, some times.
pub fn long_ticks(chip: Chip, times: u64) -> Chip {
    print::field(b"Timestamp ticks 4294967295, ", times);
    print::text(b" times\n");
    let mut state = chip;
    for _ in 0..times {
        state = state.timestamp_ticks(4294967295).chip;
    }
    state
}

// Whether a record is a fresh chip's but for the Timestamp and the slow clock's speed, which it has to have.
pub fn is_fresh(chip: Chip, stamp: u64, hundredth: bool) {
    let mut fresh = Chip::fresh();
    fresh.switches.hundredth = hundredth;
    fresh.stamp = stamp;
    print::field(b"beside a fresh chip with Timestamp ", stamp);
    name_speed(hundredth);
    print::text(b":");
    tell(chip == fresh);
    print::text(b"\n");
}
