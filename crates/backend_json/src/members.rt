// The members of an object, taken one after another in the byte order of their names.
ghost use Rattle.std.specs.Prelude.{◌≡◌, ◌≢◌, ◌<◌, ◌^◌, ℕ, List, IfSome, MatchOption, Some, codes};
ghost use Rattle.serde_json.specs.Data.{Data, Members, member, no_members, number, string, object};
ghost use Rattle.serde_json.specs.Data.{unsigned};
ghost use Rattle.serde_json.specs.View.{members_view, view};

use lw_types::FromText;
use serde_json::Value;
use std::collections::btree_map::Iter;

/// The members of an object that haven't been taken yet.
#[derive(Drop)]
pub(crate) struct Rest<'a> {
    members: Iter<'a, String, Value>,
}

impl<'a> Rest<'a> {
    /// All members, if the value is an object.
    pub(crate) fn of(value: &'a Value) -> Option<Self>
        ensures { MatchOption result
            ((members : Members) → view value.now ≢ object members)
            (λ rest. view value.now ≡ object (members_view rest.members)) }
    {
        Some(Rest {
            members: value.as_object()?.iter(),
        })
    }

    /// The next member, if it has this name.
    fn next(&mut self, name: &str) -> Option<&'a Value>
        ensures { MatchOption result
            ((value : Data) (others : Members)
            → members_view self.old.members ≢ member name.now value others)
            (λ value. members_view self.old.members
            ≡ member name.now (view value.now) (members_view self.new.members)) }
    {
        let (found, value) = self.members.next()?;
        if found.as_str() == name {
            Some(value)
        } else {
            None
        }
    }

    /// The next member, if it has this name and is the text of such a value.
    pub(crate) fn value<T: FromText>(&mut self, name: &str) -> Option<T>
        ensures value { IfSome result T.is_value }
        ensures found { IfSome result (λ value. members_view self.old.members
            ≡ member name.now (string (T.text_of value)) (members_view self.new.members)) }
        ensures only { (value : T) (others : Members) → T.is_value value
            → members_view self.old.members ≡ member name.now (string (T.text_of value)) others
            → result ≡ Some value }
    {
        T::from_text(self.any_text(name)?)
    }

    /// The text of the next member, if it has this name and is a text.
    pub(crate) fn any_text(&mut self, name: &str) -> Option<&'a str>
        ensures { MatchOption result
            ((text : List ℕ) (others : Members)
            → members_view self.old.members ≢ member name.now (string text) others)
            (λ text. members_view self.old.members
            ≡ member name.now (string text.now) (members_view self.new.members)) }
    {
        self.next(name)?.as_str()
    }

    /// The next member, if it has this name and this text.
    pub(crate) fn text(&mut self, name: &str, text: &str) -> Option<()>
        ensures { MatchOption result
            ((others : Members) → members_view self.old.members
            ≢ member name.now (string text.now) others)
            (λ _. members_view self.old.members
            ≡ member name.now (string text.now) (members_view self.new.members)) }
    {
        if self.any_text(name)? == text {
            Some(())
        } else {
            None
        }
    }

    /// The next member, if it has this name and is a whole number below 2^64.
    pub(crate) fn number(&mut self, name: &str) -> Option<u64>
        ensures { MatchOption result
            ((value : ℕ) (others : Members)
            → members_view self.old.members ≢ member name.now (number (unsigned value)) others)
            (λ value. members_view self.old.members
            ≡ member name.now (number (unsigned value)) (members_view self.new.members)) }
    {
        self.next(name)?.as_u64()
    }

    /// The members of the next member, if it has this name and is an object.
    pub(crate) fn object(&mut self, name: &str) -> Option<Self>
        ensures { MatchOption result
            ((value others : Members) → members_view self.old.members
            ≢ member name.now (object value) others)
            (λ inner. members_view self.old.members
            ≡ member name.now (object (members_view inner.members))
            (members_view self.new.members)) }
    {
        Rest::of(self.next(name)?)
    }

    /// The sender and the number of the message. They are the last two members.
    pub(crate) fn sender<T: FromText + Copy>(&mut self) -> Option<(T, u32)>
        ensures value { IfSome result (λ p. T.is_value p.0) }
        ensures found { IfSome result (λ p. members_view self.old.members
            ≡ member (codes "SenderID") (string (T.text_of p.0))
            (member (codes "TransactionID") (number (unsigned p.1)) no_members)) }
        ensures only { (sender : T) (transaction : ℕ) → T.is_value sender → transaction < 2 ^ 32
            → members_view self.old.members
            ≡ member (codes "SenderID") (string (T.text_of sender))
            (member (codes "TransactionID") (number (unsigned transaction)) no_members)
            → result ≡ Some (sender, transaction) }
    {
        let sender = self.value("SenderID")?;
        let transaction = u32::try_from(self.number("TransactionID")?).ok()?;
        self.end()?;
        Some((sender, transaction))
    }

    /// Succeeds if no member is left.
    pub(crate) fn end(&mut self) -> Option<()>
        ensures { MatchOption result (members_view self.old.members ≢ no_members)
            (λ _. members_view self.old.members ≡ no_members) }
    {
        match self.members.next() {
            None => Some(()),
            Some(_) => None,
        }
    }
}
