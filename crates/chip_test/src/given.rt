// Records to start from, made field by field.
use chip::chip::Chip;
use queue::queue::{Held, Queue};

// A fresh chip with sampling on and level 0 let through.
pub fn ready() -> Chip {
    filtering(1)
}

// The same with discard chosen: a trigger without room is lost.
pub fn discarding() -> Chip {
    let mut chip = ready();
    chip.control.writewait = false;
    chip
}

// A fresh chip with sampling on and a Filter.
pub fn filtering(filter: u16) -> Chip {
    let mut chip = Chip::fresh();
    chip.control.sampling = true;
    chip.control.filter = filter;
    chip
}

// A chip with a number of its own in each register: 1000 and the address, and at 8 also bit 32.
pub fn numbered() -> Chip {
    let mut chip = Chip::fresh();
    let mut bank = chip.bank;
    bank.values = [
        1032, 1033, 1034, 1035, 1036, 1037, 1038, 1039, 1040, 1041, 1042, 1043, 1044, 1045, 1046,
        1047,
    ];
    chip.bank = bank;
    chip.control.sampling = true;
    chip.control.readwait = true;
    chip.control.flagbusy = true;
    chip.control.filter = 1004;
    chip.control.wait = 1005;
    chip.control.overrun = 1006;
    chip.switches.low = 1008;
    chip.switches.high = 1;
    chip.switches.enabled = 1011;
    chip.stamp = 1002;
    chip.sources = [1016, 1017, 1018, 1019, 1020, 1021, 1022, 1023];
    chip
}

// A chip with its Timestamp, or with its slow clock's phase and speed.
pub fn stamped(mut chip: Chip, stamp: u64) -> Chip {
    chip.stamp = stamp;
    chip
}

pub fn phased(phase: u8, hundredth: bool) -> Chip {
    let mut chip = Chip::fresh();
    chip.switches.phase = phase;
    chip.switches.hundredth = hundredth;
    chip
}

// A chip with its Wait and Overrun Counters.
pub fn counted(mut chip: Chip, wait: u32, overrun: u32) -> Chip {
    chip.control.wait = wait;
    chip.control.overrun = overrun;
    chip
}

// A chip with all counters enabled, MUX SEL's halves, and every counter at its largest.
pub fn brimful(high: u16, low: u16) -> Chip {
    let mut chip = Chip::fresh();
    chip.switches.enabled = 65535;
    chip.switches.high = high;
    chip.switches.low = low;
    let mut bank = chip.bank;
    bank.values = [4294967295; 16];
    chip.bank = bank;
    chip
}

// A fresh chip but for the queue: samples with this header and zeros.
pub fn queued(header: u32, held: usize, sent: usize) -> Chip {
    let mut chip = Chip::fresh();
    let sample = Held {
        user: 0,
        stamp: 0,
        source: 0,
        header,
    };
    chip.queue = Queue {
        places: [sample; 8],
        held,
        sent,
    };
    chip
}
