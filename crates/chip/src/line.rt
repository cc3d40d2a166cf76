// The one active processor line of a trigger.
ghost use Rattle.std.specs.Prelude.{◌≡◌, ◌<◌, MatchOption, true, false};
ghost use Rattle.chip.specs.Chip.{line_of, one_line};

// A processor line by its number, of the eight.
#[derive(Clone, Copy)]
pub struct Line {
    pub number: u8,
    pub ghost below: { number < 8 },
}

impl Line {
    // The line that is active, if exactly one is.
    pub fn of(lines: u8) -> Option<Line>
        ensures { MatchOption result (one_line lines ≡ false) (λ line. (one_line lines ≡ true) × (line.number ≡ line_of lines)) }
    {
        if lines.count_ones() == 1 {
            return Some(Line {
                number: lines.trailing_zeros() as u8,
            });
        }
        None
    }
}
