// What a life does with its links.
use crate::allowance::CopyRate;

/// What a life does with its links.
#[derive(Clone, Copy)]
pub struct Policy {
    /// How long a link has to greet, in milliseconds; without a limit if there is none.
    pub greeting_wait: Option<u64>,
    /// A greeting takes over a name that has a link. Otherwise it is a fault of the new link.
    pub takes_over: bool,
    /// A link's name and its socket stay until the life ends, even if the link's input has ended.
    pub keeps_links: bool,
    /// While all places are taken, the links that haven't greeted have only this time, in
    /// milliseconds, divided by their number; without such a limit if there is none.
    pub crowded_wait: Option<u64>,
    /// Lines for an application wait while it has no link.
    pub lines_wait: bool,
    /// How fast a gateway's copies are taken.
    pub copies: CopyRate,
}
