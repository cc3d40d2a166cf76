// The queue's words: a Trace and a Resource sample held, sent one by one and into buffers.
use super::{given, show};
use printing::print;
use queue::queue::{Held, Queue};
use samples::edition::Edition;
use samples::sample::Sample;

fn held(sample: Sample) -> Held {
    Held {
        user: sample.user,
        stamp: sample.stamp,
        source: sample.source,
        header: sample.header,
    }
}

// A Trace sample and behind it a Resource sample, whose counters are the shadows.
fn two(edition: Edition) -> Queue {
    let trace = held(given::largest(edition, 23));
    let resource = held(given::sample(9, 6, 4, 259));
    Queue::empty().pushed(trace).pushed(resource)
}

const SHADOWS: [u32; 16] = [1, 2, 3, 4, 5, 6, 7, 8, 9, 10, 11, 12, 13, 14, 15, 16];

// Both samples' words at once; then a part of them, and the rest from the queue that it leaves; and one by one.
pub fn sent(edition: Edition) {
    let queue = two(edition);
    let mut all = [given::MARK; 110];
    let whole = queue.send_into(edition, SHADOWS, &mut all);
    line(edition, b"all", whole.count, &all);
    let mut front = [given::MARK; 50];
    let some = queue.send_into(edition, SHADOWS, &mut front);
    line(edition, b"a part", some.count, &front);
    let mut back = [given::MARK; 60];
    let rest = some.queue.send_into(edition, SHADOWS, &mut back);
    line(edition, b"the rest", rest.count, &back);
    let mut single = [given::MARK; 110];
    one_by_one(edition, queue, &mut single);
    show::case(b"send ", edition, b"one by one");
    buffer(&single);
}

fn line(edition: Edition, name: &[u8], count: u64, words: &[u16]) {
    show::case(b"send ", edition, name);
    print::field(b": count ", count);
    buffer(words);
}

fn buffer(words: &[u16]) {
    print::text(b", buffer");
    print::words(words);
    print::text(b"\n");
}

// A single send for each place; with nothing held the word is 0.
fn one_by_one(edition: Edition, queue: Queue, out: &mut [u16]) {
    let mut left = queue;
    for word in out {
        let sent = left.send(edition, SHADOWS);
        *word = sent.word;
        left = sent.queue;
    }
}
