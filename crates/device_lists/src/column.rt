// The columns of a list.
ghost use Rattle.std.specs.Prelude.{◌≡◌, ◌≢◌, ◌<◌, All, HoldsAt, IfSome, MatchOption, Some, length};
ghost use Rattle.device_lists.specs.Columns.{column_form, column_name};

use std::fmt;

/// A column of a list of devices.
#[derive(Clone, Copy, Debug, PartialEq, Eq)]
pub enum Column {
    DevEui,
    JoinEui,
    AppKey,
    Application,
    /// RX1DROffset.
    Offset,
    /// The RX delay, in seconds.
    Delay,
    LastDevNonce,
    LastJoinNonce,
    /// How many new uplinks were accepted.
    Heard,
    /// Whether the device has a session.
    Session,
    /// What people call the device.
    Name,
}

impl Column {
    /// The name in the head of a list.
    #[tactic(auto, unfolding(crate::specs::Columns::column_name))]
    pub fn name(self) -> &'static str
        ensures { result.now ≡ column_name self }
    {
        match self {
            Column::DevEui => "DevEUI",
            Column::JoinEui => "JoinEUI",
            Column::AppKey => "AppKey",
            Column::Application => "Application",
            Column::Offset => "Offset",
            Column::Delay => "Delay",
            Column::LastDevNonce => "LastDevNonce",
            Column::LastJoinNonce => "LastJoinNonce",
            Column::Heard => "Heard",
            Column::Session => "Session",
            Column::Name => "Name",
        }
    }

    /// The column of this name; `None` if there is none.
    #[tactic(auto, unfolding(crate::specs::Columns::column_name))]
    pub fn of_name(name: &str) -> Option<Column>
        ensures found { IfSome result (λ c. name.now ≡ column_name c) }
        ensures only { (c : Column) → name.now ≡ column_name c → result ≡ Some c }
    {
        match name {
            "DevEUI" => Some(Column::DevEui),
            "JoinEUI" => Some(Column::JoinEui),
            "AppKey" => Some(Column::AppKey),
            "Application" => Some(Column::Application),
            "Offset" => Some(Column::Offset),
            "Delay" => Some(Column::Delay),
            "LastDevNonce" => Some(Column::LastDevNonce),
            "LastJoinNonce" => Some(Column::LastJoinNonce),
            "Heard" => Some(Column::Heard),
            "Session" => Some(Column::Session),
            "Name" => Some(Column::Name),
            _ => None,
        }
    }

    /// What its values look like, for messages.
    #[tactic(auto, unfolding(crate::specs::Columns::column_form))]
    pub fn form(self) -> &'static str
        ensures { result.now ≡ column_form self }
    {
        match self {
            Column::DevEui | Column::JoinEui => "16 upper-case hex digits",
            Column::AppKey => "32 upper-case hex digits",
            Column::Application => "a number from 0 to 15",
            Column::Offset => "a number from 0 to 5",
            Column::Delay => "a number from 1 to 15",
            Column::LastDevNonce => "a number from 0 to 65535",
            Column::LastJoinNonce => "a number from 0 to 16777215",
            Column::Heard => "a number below 2^63",
            Column::Session => "yes or no",
            Column::Name => "a text",
        }
    }
}

/// The first place of a column in a head.
pub(crate) fn place_of(head: &[Column], column: Column) -> Option<usize>
    ensures { MatchOption result (All (λ c. c ≢ column) head.now)
        (λ i. (i < length head.now) × HoldsAt (λ c. c ≡ column) head.now i) }
{
    head.iter().position(|named| *named == column)
}

impl fmt::Display for Column {
    fn fmt<W: fmt::Write>(&self, f: &mut fmt::Formatter<W>) -> fmt::Result {
        f.write_str(self.name())
    }
}
