// Values that are written as words of a line.
ghost use Rattle.std.specs.Prelude.{◌≡◌, ◌≤◌, ◌∷◌, ◌⊎◌, ◌↔◌, ℕ, Err, List, Some, IfErr, IfOk};
ghost use Rattle.std.specs.Prelude.{IfSome};
ghost use Rattle.std.specs.Fmt.{decimal};
ghost use Rattle.lw_types.specs.Hex.{field_text, IsBytes, IsFieldText};
ghost use Rattle.lw_types.specs.WordsLeft.{words_left};
ghost use Rattle.lw_types.specs.declared.refusal.Refusal.TheVariants.{BadMessage, OutOfMemory};
ghost use Rattle.gateway_wire.specs.Finding.{AreLast, Finds};

use devices::{AskedBytes, Ranged};
use lw_types::{FromText, Refusal, Words, read_field};
use std::alloc::Global;

/// The value of the next word; `None` if the word is the text of no value, or if no word is left.
pub fn next_value<T: FromText>(words: &mut Words<'_>) -> Option<T>
    ensures value { IfSome result T.is_value }
    ensures found { IfSome result (λ x. words_left words.old ≡ T.text_of x ∷ words_left words.new) }
    ensures only { (x : T) (rest : List (List ℕ)) → T.is_value x
        → words_left words.old ≡ T.text_of x ∷ rest
        → (result ≡ Some x) × (words_left words.new ≡ rest) }
{
    T::from_text(words.next()?)
}

/// The number in the range whose decimal the next word is; `None` for any other word, or if no word
/// is left.
pub fn next_ranged<const LEAST: u64, const MOST: u64>(
    words: &mut Words<'_>,
) -> Option<Ranged<LEAST, MOST>>
    ensures found { IfSome result (λ n. words_left words.old ≡ decimal n ∷ words_left words.new) }
    ensures only { (n : ℕ) (rest : List (List ℕ)) → LEAST ≤ n → n ≤ MOST
        → words_left words.old ≡ decimal n ∷ rest
        → (result ≡ Some n) × (words_left words.new ≡ rest) }
{
    Ranged::new(next_value(words)?)
}

/// Whether an item is confirmed: `c` for yes, and `u` for no.
#[derive(Clone, Copy, PartialEq, Eq)]
pub(crate) struct Confirmed(pub bool);

impl FromText for Confirmed {
    ghost use Rattle.gateway_wire.specs.Request.{confirmed_text};

    ghost text_of = { λ confirmed. confirmed_text confirmed.0 };

    #[tactic(auto, unfolding(crate::specs::Request::confirmed_text))]
    fn from_text(text: &str) -> Option<Self> {
        match text {
            "c" => Some(Confirmed(true)),
            "u" => Some(Confirmed(false)),
            _ => None,
        }
    }
}

/// The bytes of the last word, which is `-` if there are none. Any other word is refused as
/// `BadMessage`, and so are no word and more than one, whether or not memory is available.
pub(crate) fn last_bytes(alloc: Global, mut words: Words<'_>) -> Result<AskedBytes, Refusal>
    ensures { Finds (AreLast (words_left words.entry)) result }
{
    match (words.next(), words.next()) {
        (Some(word), None) => hex_bytes(alloc, word),
        _ => Err(Refusal::BadMessage),
    }
}

// The bytes of this text.
fn hex_bytes(alloc: Global, text: &str) -> Result<AskedBytes, Refusal>
    ensures found { IfOk result (λ bytes. IsBytes bytes × (text.now ≡ field_text bytes)) }
    ensures malformed { (result ≡ Err BadMessage) ↔ ¬ (IsFieldText text.now) }
    ensures refused { IfErr result (λ e. (e ≡ BadMessage) ⊎ (e ≡ OutOfMemory)) }
{
    match read_field(alloc, text) {
        Err(e) => Err(e),
        Ok(bytes) => {
            let asked: Result<AskedBytes, _> = AskedBytes::new(bytes);
            Ok(asked.unwrap())
        }
    }
}
