// Reading of values that have one text each.
ghost use Rattle.std.specs.Prelude.{◌≡◌, List, ℕ, IfSome, Some};

/// A value that has exactly one text. The text that is written, for example by `Display`, is the
/// only one that is read.
pub trait FromText: Sized {
    /// What holds of each value of the type, if a clause ranges over more.
    ghost is_value: { Self → Type 0 } = { λ _. Unit {0} };

    /// The text of a value.
    ghost text_of: { Self → List ℕ };

    /// The value whose text this is; `None` if it is the text of no value.
    fn from_text(text: &str) -> Option<Self>
        ensures value { IfSome result is_value }
        ensures found { IfSome result (λ x. text.now ≡ text_of x) }
        ensures only { (x : Self) → is_value x → text.now ≡ text_of x → result ≡ Some x };
}
