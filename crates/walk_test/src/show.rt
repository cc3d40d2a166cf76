// A line for each answer of the walk, with document 01's numbers.
use printing::print;
use samples::edition::Edition;
use samples::reader::{Fault, fault_number};
use samples::sample::Sample;
use walk::Step;

// The case, the place asked for and the capture's length, and all that the walk answers.
pub fn step(edition: Edition, name: &[u8], length: usize, place: usize, found: Step) {
    match edition {
        Edition::First => {}
        Edition::Second => print::text(b"II "),
    }
    print::text(name);
    print::field(b": at ", place as u64);
    print::field(b" of ", length as u64);
    match found {
        Step::Whole { sample, next } => answer(0, next, next, 0, sample),
        Step::Gap(gap) => answer(
            fault_number(gap.fault),
            gap.next,
            gap.decided,
            gap.skipped,
            Sample::zero(),
        ),
        Step::End { place, decided } => answer(
            fault_number(Fault::Unfinished),
            place,
            decided,
            0,
            Sample::zero(),
        ),
    }
}

fn answer(number: u64, next: usize, decided: usize, skipped: usize, sample: Sample) {
    print::field(b": answer ", number);
    print::field(b" next ", next as u64);
    print::field(b" decided ", decided as u64);
    print::field(b" skipped ", skipped as u64);
    fields(sample);
}

fn fields(sample: Sample) {
    print::field(b", header ", sample.header as u64);
    print::field(b" source ", sample.source as u64);
    print::field(b" stamp ", sample.stamp);
    print::field(b" user ", sample.user);
    print::text(b" counters");
    print::counters(sample.counters);
    print::text(b"\n");
}
