// The MultiKron II's address map: an address is decoded once.
ghost use Rattle.std.specs.Prelude.{◌≡◌};
ghost use Rattle.chip2.specs.Place.{place_of, register_of};

#[derive(Clone, Copy)]
pub enum Place {
    // Above 127.
    Beyond,
    // Nothing there.
    Nowhere,
    Reset,
    Csr,
    Timestamp,
    Filter,
    Waits,
    Overruns,
    HighOrder,
    Enable,
    Mode,
    Select,
    // With its number.
    Source(usize),
    // Written, or read with copy.
    Counter(usize),
    // A software event, or a read without copy.
    Shadow(usize),
    // Whether it is a Resource trigger, and its filter level.
    Trigger(bool, usize),
}

#[tactic(auto, unfolding(crate::specs::Place::place_of))]
pub fn find(address: u64) -> Place
    ensures { result ≡ place_of address }
{
    match address {
        0..=31 => register(address),
        32..=39 => Place::Source((address - 32) as usize),
        64..=79 => Place::Counter((address - 64) as usize),
        80..=95 => Place::Shadow((address - 80) as usize),
        96..=111 => Place::Trigger(false, (address - 96) as usize),
        112..=127 => Place::Trigger(true, (address - 112) as usize),
        0..=127 => Place::Nowhere,
        _ => Place::Beyond,
    }
}

// The registers below 32.
#[tactic(auto, unfolding(crate::specs::Place::register_of))]
fn register(address: u64) -> Place
    ensures { result ≡ register_of address }
{
    match address {
        0 => Place::Reset,
        1 => Place::Csr,
        2 => Place::Timestamp,
        4 => Place::Filter,
        5 => Place::Waits,
        6 => Place::Overruns,
        7 => Place::HighOrder,
        8 => Place::Enable,
        10 => Place::Mode,
        12 => Place::Select,
        _ => Place::Nowhere,
    }
}
