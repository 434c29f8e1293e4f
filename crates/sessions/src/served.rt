// Frames that are served.
ghost use Rattle.std.specs.Prelude.{◌≡◌, Ok};
ghost use Rattle.sessions.specs.Served.{is_request};

use join_server::JoinRequestBytes;
use uplinks::Uplink;

// A frame from a device, which refers to the bytes it was read from.
#[derive(Drop)]
pub(crate) enum Served<'a> {
    Request(JoinRequestBytes),
    Uplink(Uplink<'a>),
}

impl Served<'_> {
    pub(crate) fn is_request(&self) -> bool
        ensures { result ≡ is_request (Ok self.now) }
    {
        match self {
            Served::Request(_) => true,
            Served::Uplink(_) => false,
        }
    }
}
