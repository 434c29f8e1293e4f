// The orders of an operator.
ghost use Rattle.std.specs.Prelude.{◌≡◌, ◌≢◌, MatchOption};
ghost use Rattle.lnsd_operator.specs.Orders.{order_word};

/// An operator's order to a server over its control socket: a line of one word.
#[derive(Clone, Copy, Debug, PartialEq, Eq)]
pub enum Order {
    /// End the life. The answer comes when it has ended.
    Stop,
    /// Send the life's counts.
    Status,
    /// Send the list of the devices.
    Devices,
    /// Send a line for each event, until the life ends.
    Watch,
    /// Read the list of the names that may greet again.
    Reload,
}

impl Order {
    /// The word of this order.
    pub fn word(self) -> &'static str
        ensures { result.now ≡ order_word self }
    {
        match self {
            Order::Stop => "stop",
            Order::Status => "status",
            Order::Devices => "devices",
            Order::Watch => "watch",
            Order::Reload => "reload",
        }
    }

    /// The order of this word, if there is one.
    pub fn of(word: &str) -> Option<Self>
        ensures { MatchOption result ((order : Order) → word.now ≢ order_word order)
            (λ order. word.now ≡ order_word order) }
    {
        match word {
            "stop" => Some(Order::Stop),
            "status" => Some(Order::Status),
            "devices" => Some(Order::Devices),
            "watch" => Some(Order::Watch),
            "reload" => Some(Order::Reload),
            _ => None,
        }
    }
}
