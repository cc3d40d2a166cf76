// What the loop asks of a format: how long a record is, and how a block of them runs.
ghost use Rattle.std.specs.Prelude.{ℕ, ◌≡◌, ◌<◌, length};
ghost use Rattle.turns.specs.Form.{Form};
ghost use Rattle.turns.specs.Run.{block_buffer, block_of};

// The chip after a block, how many records it took, and how many bytes of text it wrote.
#[derive(Clone, Copy)]
pub struct Block<C> {
    pub chip: C,
    pub records: usize,
    pub written: usize,
}

pub trait Format {
    // What the records run on.
    type Chip: Copy;

    // How many bytes a record has.
    const SIZE: usize;

    ghost SIZE: { ℕ };

    ghost form: { Form Self.Chip };

    ghost fresh: { Self.Chip };

    // The chip before the first record.
    fn fresh() -> Self::Chip
        ensures { result ≡ fresh };

    // Runs the records of an input, a last part of one too, as many as the buffer has room for.
    fn run_block(chip: Self::Chip, input: &[u8], out: &mut [u8]) -> Block<Self::Chip>
        ensures value { result ≡ block_of form input.now (length out.old) chip }
        ensures out_after { out.new ≡ block_buffer form input.now out.old chip };

    ghost size_is: { form.size ≡ SIZE };

    ghost positive: { 0 < form.size };

    ghost roomy: { 0 < form.room };
}
