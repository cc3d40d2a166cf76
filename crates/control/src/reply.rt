// What an operation answers, and document 01's number and value for it.
ghost use Rattle.std.specs.Prelude.{◌≡◌};
ghost use Rattle.control.specs.Reply.{reply_number, reply_value};

#[derive(Clone, Copy, PartialEq, Eq)]
pub enum Reply {
    Done,
    TooHigh,
    Nothing,
    Forbidden,
    Lines,
    NoWord,
    Off,
    Filtered,
    Lost,
    Wait,
    Busy,
    Outside,
}

// Bit 63 alone.
const TWO_63: u64 = 1 << 63;

impl Reply {
    // Document 01's number of a reply.
    pub fn number(self) -> u64
        ensures { result ≡ reply_number self }
    {
        match self {
            Reply::Done => 0,
            Reply::TooHigh => 1,
            Reply::Nothing => 2,
            Reply::Forbidden => 3,
            Reply::Lines => 4,
            Reply::NoWord => 5,
            Reply::Off => 6,
            Reply::Filtered => 7,
            Reply::Lost => 8,
            Reply::Wait => 10,
            Reply::Busy => 11,
            Reply::Outside => 15,
        }
    }

    // Document 01's value of a reply that reads, sends and writes nothing.
    pub fn value(self) -> u64
        ensures { result ≡ reply_value self }
    {
        match self {
            Reply::Busy => TWO_63,
            _ => 0,
        }
    }
}
