// The address map: an address is decoded once.
ghost use Rattle.std.specs.Prelude.{◌≡◌};
ghost use Rattle.chip.specs.Place.{place_of, register_of};

#[derive(Clone, Copy)]
pub enum Place {
    // Above 127.
    Beyond,
    // Nothing there.
    Nowhere,
    Reset,
    Csr,
    Timestamp,
    Filter,
    Waits,
    Overruns,
    Mux,
    Clear,
    Enable,
    Disable,
    // With its number.
    Source(usize),
    Counter(usize),
    // Whether it is a Resource trigger, and its filter level.
    Trigger(bool, usize),
}

#[tactic(auto, unfolding(crate::specs::Place::place_of))]
pub fn find(address: u64) -> Place
    ensures { result ≡ place_of address }
{
    match address {
        0..=15 => register(address),
        16..=23 => Place::Source((address - 16) as usize),
        32..=47 => Place::Counter((address - 32) as usize),
        96..=111 => Place::Trigger(false, (address - 96) as usize),
        112..=127 => Place::Trigger(true, (address - 112) as usize),
        0..=127 => Place::Nowhere,
        _ => Place::Beyond,
    }
}

// The registers below 16.
#[tactic(auto, unfolding(crate::specs::Place::register_of))]
fn register(address: u64) -> Place
    ensures { result ≡ register_of address }
{
    match address {
        0 => Place::Reset,
        1 => Place::Csr,
        2 => Place::Timestamp,
        4 => Place::Filter,
        5 => Place::Waits,
        6 => Place::Overruns,
        8 => Place::Mux,
        10 => Place::Clear,
        11 => Place::Enable,
        12 => Place::Disable,
        _ => Place::Nowhere,
    }
}
