// Lines for a person to read, with document 01's numbers for the answers.
use printing::print;
use samples::edition::Edition;
use samples::reader::{Reading, Refusal, fault_number};
use samples::sample::Sample;
use samples::writer::{WriteError, written_count, written_number};
use words::word::byte;

const STDOUT_FILENO: i32 = 1;

fn fields(sample: Sample) {
    print::field(b"header ", sample.header as u64);
    print::field(b" source ", sample.source as u64);
    print::field(b" stamp ", sample.stamp);
    print::field(b" user ", sample.user);
    print::text(b" counters");
    print::counters(sample.counters);
}

// Begins a line: what is done, in which edition, and the case's name or its first part.
pub fn case(done: &[u8], edition: Edition, name: &[u8]) {
    print::text(done);
    match edition {
        Edition::First => {}
        Edition::Second => print::text(b"II "),
    }
    print::text(name);
}

// How many words of a sample are read, as the end of a name.
pub fn words(count: usize) {
    match count {
        0 => print::text(b", no word"),
        1 => print::text(b", 1 word"),
        _ => {
            print::field(b", ", count as u64);
            print::text(b" words");
        }
    }
}

// The room in a buffer of 100 places, where it isn't all of them, as the end of a name.
pub fn room(room: usize) {
    match room {
        0 => print::text(b", no room"),
        1..100 => print::field(b", room ", room as u64),
        _ => {}
    }
}

fn answer(answer: u64, count: u64) {
    print::field(b": answer ", answer);
    print::field(b" count ", count);
}

// What the writer answered, and the whole buffer after it, as the rest of a line.
pub fn written(written: Result<usize, WriteError>, buffer: &[u16]) {
    answer(written_number(written), written_count(written) as u64);
    print::text(b", buffer");
    print::words(buffer);
    print::text(b"\n");
}

// What the reader answered and where it was decided, its sample with it.
pub fn reading(edition: Edition, name: &[u8], found: Result<Reading, Refusal>) {
    case(b"read ", edition, name);
    rest(found);
}

// The same as the rest of a line.
pub fn rest(found: Result<Reading, Refusal>) {
    answer(number(found), count(found));
    print::field(b" place ", place(found));
    print::text(b", ");
    match found {
        Ok(reading) => fields(reading.sample),
        Err(_) => fields(Sample::zero()),
    }
    print::text(b"\n");
}

// The number of what the reader answered; 0 with a sample.
pub fn number(found: Result<Reading, Refusal>) -> u64 {
    match found {
        Ok(_) => 0,
        Err(refusal) => fault_number(refusal.fault),
    }
}

// How many words the sample took; none with a refusal.
pub fn count(found: Result<Reading, Refusal>) -> u64 {
    match found {
        Ok(reading) => reading.count as u64,
        Err(_) => 0,
    }
}

// How many good words stand before the decision; a sample's own, if there is one.
pub fn place(found: Result<Reading, Refusal>) -> u64 {
    match found {
        Ok(reading) => reading.count as u64,
        Err(refusal) => refusal.place as u64,
    }
}

// The data bytes of words, in hexadecimal as document 01 writes them.
pub fn bytes(edition: Edition, name: &[u8], ws: &[u16]) {
    case(b"", edition, name);
    data(ws);
    print::text(b"\n");
}

fn data(ws: &[u16]) {
    for word in ws {
        hex(byte(*word));
    }
}

pub fn hex(byte: u8) {
    print::text(b" ");
    io::print_hex(STDOUT_FILENO, byte as u64, 2);
}

// How far a stream is read.
pub fn taken(edition: Edition, name: &[u8], count: usize) {
    case(b"", edition, name);
    print::field(b": words taken ", count as u64);
    print::text(b"\n");
}
