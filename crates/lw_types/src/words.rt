// The words of a line, separated by exactly one space each.
ghost use Rattle.std.specs.Prelude.{◌≡◌, ◌∷◌};
ghost use Rattle.lw_types.specs.Words.{words_in, words_of};

/// The words of a line that are left to read. Between two spaces in a row there is an empty word,
/// so joining the words gives the line again.
#[derive(Clone, Copy)]
pub struct Words<'a> {
    rest: Option<&'a str>,
}

impl<'a> Words<'a> {
    ghost use Rattle.lw_types.specs.WordsLeft.{words_left};

    /// All the words of a line.
    pub fn of(line: &'a str) -> Self
        ensures { words_left result ≡ words_of line.now }
    {
        Words { rest: Some(line) }
    }
}

impl<'a> Iterator for Words<'a> {
    ghost use Rattle.std.specs.Iterator.{YieldsFirstBy, item_count};
    ghost use Rattle.lw_types.specs.WordsLeft.{words_left};

    type Item = &'a str;

    ghost next_gives = { YieldsFirstBy (λ word. word.now) words_left };

    ghost remaining = { item_count words_left };

    fn next(&mut self) -> Option<&'a str> {
        let (word, rest) = first_word(self.rest?);
        self.rest = rest;
        Some(word)
    }
}

// The first word of a line and, if a space follows it, the rest after the space.
fn first_word(line: &str) -> (&str, Option<&str>)
    ensures { words_of line.now ≡ result.0.now ∷ words_in result.1 }
{
    match line.split_once(' ') {
        Some((word, rest)) => (word, Some(rest)),
        None => (line, None),
    }
}
