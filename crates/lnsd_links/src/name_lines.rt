// The lines of a list of names.
ghost use Rattle.std.specs.Prelude.{◌≡◌, ◌<◌, ◌∷◌, ◌^◌, ℕ, [], IfSome, Some, codes};
ghost use Rattle.std.specs.Fmt.{decimal};
ghost use Rattle.gateway_wire.specs.declared.recipient.Recipient.{Recipient};
ghost use Rattle.gateway_wire.specs.declared.recipient.Recipient.TheVariants as names;
ghost use Rattle.lw_types.specs.Hex.{eui_text};
ghost use Rattle.lw_types.specs.declared.identifiers.Eui.{Eui};
ghost use Rattle.lw_types.specs.WordsLeft.{words_left};
ghost use Rattle.lnsd_links.specs.NameLines.{is_remark, lines_in, lines_of, listing_words, IsName};
ghost use Rattle.lnsd_links.specs.NameLines.{Lists};

use gateway_wire::{Recipient, next_ranged, next_value};
use lw_types::{Words, laws};

/// Whether a line lists nothing: it is empty, or begins with `#`.
pub(crate) fn is_remark(line: &str) -> bool
    ensures { result ≡ is_remark line.now }
{
    match line.as_bytes().first() {
        Some(first) => *first == b'#',
        None => true,
    }
}

/// The name that a line lists; `None` if it lists none.
pub(crate) fn name_in(line: &str) -> Option<Recipient>
    ensures found { IfSome result (Lists line.now) }
    ensures only { (name : Recipient) → Lists line.now name → result ≡ Some name }
{
    laws::a_line_is_its_words();
    laws::each_text_is_a_word();
    let mut words = Words::of(line);
    let word = words.next()?;
    named_by(word, words)
}

// The name of a line with this first word and these words after it.
fn named_by(word: &str, mut words: Words<'_>) -> Option<Recipient>
    ensures found { IfSome result (λ name. IsName name
        × (word.now ∷ words_left words.entry ≡ listing_words name)) }
    ensures only { (name : Recipient) → IsName name
        → word.now ∷ words_left words.entry ≡ listing_words name → result ≡ Some name }
{
    match word {
        "gateway" => gateway_in(words),
        "application" => application_in(words),
        _ => None,
    }
}

// The gateway whose EUI is the one word that is left.
fn gateway_in(mut words: Words<'_>) -> Option<Recipient>
    ensures found { IfSome result (λ name. IsName name
        × (codes "gateway" ∷ words_left words.entry ≡ listing_words name)) }
    ensures only { (gateway : Eui) → gateway.0 < 2 ^ 64
        → words_left words.entry ≡ eui_text gateway ∷ []
        → result ≡ Some (names.Gateway gateway) }
{
    let gateway = next_value(&mut words)?;
    match words.next() {
        Some(_) => None,
        None => Some(Recipient::Gateway(gateway)),
    }
}

// The application whose number is the one word that is left.
fn application_in(mut words: Words<'_>) -> Option<Recipient>
    ensures found { IfSome result (λ name. IsName name
        × (codes "application" ∷ words_left words.entry ≡ listing_words name)) }
    ensures only { (application : ℕ) → application < 16
        → words_left words.entry ≡ decimal application ∷ []
        → result ≡ Some (names.Application application) }
{
    let application = next_ranged(&mut words)?;
    match words.next() {
        Some(_) => None,
        None => Some(Recipient::Application(application)),
    }
}

/// The lines of a text that are left to read.
#[derive(Clone, Copy)]
pub(crate) struct ListLines<'a> {
    rest: Option<&'a str>,
}

impl<'a> ListLines<'a> {
    ghost use Rattle.lnsd_links.specs.LinesLeft.{lines_left};

    /// All the lines of a text.
    pub(crate) fn of(text: &'a str) -> Self
        ensures { lines_left result ≡ lines_of text.now }
    {
        ListLines { rest: Some(text) }
    }
}

impl<'a> Iterator for ListLines<'a> {
    ghost use Rattle.std.specs.Iterator.{YieldsFirstBy, item_count};
    ghost use Rattle.lnsd_links.specs.LinesLeft.{lines_left};

    type Item = &'a str;

    ghost next_gives = { YieldsFirstBy (λ line. line.now) lines_left };

    ghost remaining = { item_count lines_left };

    fn next(&mut self) -> Option<&'a str> {
        let (line, rest) = line_and_rest(self.rest?);
        self.rest = rest;
        Some(line)
    }
}

// The first line of a text and, if a newline follows it, the rest after the newline.
fn line_and_rest(text: &str) -> (&str, Option<&str>)
    ensures { lines_of text.now ≡ result.0.now ∷ lines_in result.1 }
{
    match text.split_once('\n') {
        Some((line, rest)) => (line, Some(rest)),
        None => (text, None),
    }
}
