// The two editions of the chip, and how wide the fields of their samples are.
ghost use Rattle.std.specs.Prelude.{◌≡◌};
ghost use Rattle.samples.specs.Layout.{field_widths, total, widths};

// The MultiKron and the MultiKron II.
#[derive(Clone, Copy)]
pub enum Edition {
    First,
    Second,
}

// How many bytes of the Timestamp a sample has; here and below a `match` is the table of the editions.
pub fn stamp_bytes(edition: Edition) -> usize
    ensures { result ≡ (widths edition).stamp_bytes }
{
    match edition {
        Edition::First => 5,
        Edition::Second => 7,
    }
}

// How many bytes of user data.
pub fn user_bytes(edition: Edition) -> usize
    ensures { result ≡ (widths edition).user_bytes }
{
    match edition {
        Edition::First => 6,
        Edition::Second => 8,
    }
}

// How many bytes a Trace sample has: the four fields of every sample. A Resource sample's counters come after them.
pub fn trace_bytes(edition: Edition) -> usize
    ensures { result ≡ total (field_widths (widths edition)) }
{
    5 + stamp_bytes(edition) + user_bytes(edition)
}
