// What shows that a life keeps its links.
ghost use Rattle.std.specs.Prelude.{◌↔◌, IsSome, IsTrue};

use lnsd_links::Policy;

/// Shows that a life keeps its links. Only [`Lasting::of`] makes it.
#[derive(Clone, Copy)]
pub(crate) struct Lasting(());

impl Lasting {
    /// Returns a `Lasting` if a life with this policy keeps its links.
    pub(crate) fn of(policy: &Policy) -> Option<Self>
        ensures { IsSome result ↔ IsTrue policy.now.keeps_links }
    {
        if policy.keeps_links {
            Some(Lasting(()))
        } else {
            None
        }
    }
}
