//! The links of a life: where they come from, their places and names, what their senders write, the
//! rings through which effects come, and the signals between the threads.
#![tactic(auto)]

mod allowance;
mod door;
mod gathering;
pub mod laws;
mod link;
mod name_lines;
mod name_list;
mod name_source;
mod names;
mod outgoing;
mod policy;
mod rings;
mod routing;
mod signals;
mod stacks;
mod writing;

pub use allowance::{Allowance, CopyCount, CopyRate};
pub use door::{Door, Entrance};
pub use gathering::drop_all;
pub use link::{
    ClosedLink, LeftLink, Link, LinkCount, MOST_PLACES, Named, PlaceCount, accept, empty_places,
    set_options,
};
pub use lnsd_operator::NameListFault;
pub use name_list::NameList;
pub use name_source::{NameSource, read_names};
pub use names::{
    APPLICATIONS, Directory, HeldName, LeftName, LinkedGateway, MOST_GATEWAYS, Ungranted,
};
pub use outgoing::Outgoing;
pub use policy::Policy;
pub use rings::{OwnRing, PLACES, WaitingLines};
pub use routing::route;
pub use signals::{Ending, LifeStage, Signals};
pub use stacks::STACK;
pub use writing::{GreetedLink, HostSender, Sender, Spare, is_passing};
