// What becomes of a trigger that has exactly one active line.
#[derive(Clone, Copy, PartialEq, Eq)]
pub enum Fate {
    Off,
    Filtered,
    Wait,
    Lost,
    Taken,
}
