// The lines of an input.
ghost use Rattle.std.specs.Prelude.{◌≡◌};
ghost use Rattle.scripts.specs.Lines.{IsOneLine, IsSplit};

/// The lines that are left to read. A line ends at a newline or at the end of the input. So an
/// empty input has no line, and a newline at the end begins no further one.
#[derive(Clone, Copy)]
pub struct Lines<'a> {
    rest: &'a [u8],
}

impl<'a> Lines<'a> {
    /// All lines of an input.
    pub fn of(input: &'a [u8]) -> Self
        ensures { result.rest.now ≡ input.now }
    {
        Lines { rest: input }
    }
}

impl<'a> Iterator for Lines<'a> {
    ghost use Rattle.std.specs.Prelude.{length};
    ghost use Rattle.std.specs.Iterator.{at_most};
    ghost use Rattle.scripts.specs.Lines.{TakesLine};

    type Item = &'a [u8];

    ghost next_gives = { λ lines line after. TakesLine lines.rest.now line after.rest.now };

    ghost remaining = { λ lines. at_most (length lines.rest.now) };

    fn next(&mut self) -> Option<&'a [u8]> {
        if self.rest.is_empty() {
            return None;
        }
        let (line, rest) = first_line(self.rest);
        self.rest = rest;
        Some(line)
    }
}

// The first line of an input, and what is left after it.
fn first_line(input: &[u8]) -> (&[u8], &[u8])
    ensures { IsOneLine result.0.now × IsSplit input.now result.0.now result.1.now }
{
    match input.iter().position(|byte| *byte == b'\n') {
        Some(end) => (&input[..end], &input[end + 1..]),
        None => (input, &[]),
    }
}
