// A disk whose failures and crashes are caused on demand.
ghost use Rattle.std.specs.Prelude.{◌≡◌, ◌≢◌, ◌<◌, ◌+◌, ◌-◌, ◌^◌};
ghost use Rattle.disk.specs.State.{IsPermitted, IsSettledAt};
ghost use Rattle.disk.specs.Crash.{IsCrashed};
ghost use Rattle.disk.specs.Outlook.{Outlook};
ghost use Rattle.disk.specs.Outlook.Outlook.{Unknown, FailsAfter};

use crate::Disk;

/// What a crash leaves at the open positions. All other positions keep their bytes.
#[derive(PartialEq, Eq, Drop)]
pub enum Image {
    /// The bytes of the last sync that succeeded.
    Old,
    /// The bytes as written.
    New,
    /// This byte everywhere.
    Fill(u8),
    /// The byte p of these at position p, or the byte as written if they have none there.
    Bytes(Vec<u8>),
}

/// A disk that fails and crashes on demand. Its calls succeed unless a failure was armed.
pub trait Sim: Disk {
    /// Makes the nth call from now fail, and no other one. Reads count as calls, a crash doesn't.
    /// An earlier arming is forgotten. After 2^64 - 1 failures the disk fails no more.
    fn arm(&mut self, n: u64)
        requires { 0 < n }
        ensures armed { Self.failures self.old + 1 < 2 ^ 64
            → Self.outlook self.new ≡ FailsAfter (n - 1) }
        ensures same { Self.state self.new ≡ Self.state self.old }
        ensures failures { Self.failures self.new ≡ Self.failures self.old };

    /// Crashes: the content is then the image, and nothing is open.
    fn crash(&mut self, image: &Image)
        ensures image { IsCrashed image.now (Self.state self.old) (Self.state self.new).content }
        ensures permitted { IsPermitted (Self.state self.old) (Self.state self.new).content }
        ensures settled { IsSettledAt (Self.state self.new).content (Self.state self.new) }
        ensures failures { Self.failures self.new ≡ Self.failures self.old }
        ensures outlook { Self.outlook self.new ≡ Self.outlook self.old };

    /// Such a disk does what `Disk` says.
    ghost is_honest: { Self.honest };

    /// It is always known whether a call will fail.
    ghost is_foreseen: { (disk : Self) → Self.outlook disk ≢ Unknown };
}
