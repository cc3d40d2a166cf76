// A record of sixteen bytes, and the operation that it asks for.
ghost use Rattle.std.specs.Prelude.{◌≡◌, ◌+◌, ◌≤◌, ◌<◌, ◌^◌, drop, length, take};
ghost use Rattle.words.specs.Bytes.{number};
ghost use Rattle.script2.specs.Record.{by_kind, operation_of};

// What a record asks for; a record that asks for nothing is reply 9.
#[derive(Clone, Copy)]
pub enum Operation {
    Reset,
    // Address, data and processor lines.
    Write(u64, u64, u8),
    Read(u64),
    // The count, and the external lines that are high.
    Ticks(u32, u16),
    Nodes(u32, u16),
    Events(u16),
    Send,
    // How many places the buffer has.
    Fill(usize),
}

// The operation of a record: kind, address, lines, a zero byte, the lines that are high, two zero bytes, data.
pub fn decode(bytes: &[u8]) -> Option<Operation>
    ensures { result ≡ operation_of bytes.now }
{
    let [
        kind,
        address,
        lines,
        zero,
        low,
        high,
        sixth,
        seventh,
        a,
        b,
        c,
        d,
        e,
        f,
        g,
        h,
    ] = bytes
    else {
        return None;
    };
    if (*zero == 0) & ((*sixth == 0) & (*seventh == 0)) {
        let levels = u16::from_le_bytes([*low, *high]);
        let bits = u64::from_le_bytes([*a, *b, *c, *d, *e, *f, *g, *h]);
        return by_kind(*kind, *address, *lines, levels, bits);
    }
    None
}

fn by_kind(kind: u8, address: u8, lines: u8, levels: u16, bits: u64) -> Option<Operation>
    ensures { result ≡ by_kind kind address lines levels bits }
{
    match kind {
        0 => Some(Operation::Reset),
        1 => Some(Operation::Write(address as u64, bits, lines)),
        2 => Some(Operation::Read(address as u64)),
        3 => Some(Operation::Ticks(u32::try_from(bits).ok()?, levels)),
        4 => Some(Operation::Nodes(u32::try_from(bits).ok()?, levels)),
        5 => Some(Operation::Events(u16::try_from(bits).ok()?)),
        6 => Some(Operation::Send),
        7 if bits <= 1000 => Some(Operation::Fill(bits as usize)),
        _ => None,
    }
}
