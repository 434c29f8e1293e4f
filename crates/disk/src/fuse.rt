// Makes one of the coming calls fail, and counts the calls that failed.
ghost use Rattle.std.specs.Prelude.{◌≡◌, ◌<◌, ◌+◌, ◌-◌, ◌^◌, is_ok};
ghost use Rattle.std.specs.Option.{ForSome};
ghost use Rattle.disk.specs.Outlook.{IsForeseen, HasCause};
ghost use Rattle.disk.specs.Outlook.Outlook.{AllSucceed, FailsAfter};

use crate::DeviceFailed;

#[derive(Drop)]
pub struct Fuse {
    // The number of calls that succeed before the one that fails.
    left: Option<u64>,
    failures: u64,
    ghost countable: { ForSome left (λ _. failures + 1 < 2 ^ 64) },
}

impl Fuse {
    ghost use Rattle.disk.specs.Fuse.{outlook_of, failures_of};

    pub fn new() -> Self
        ensures failures { failures_of result ≡ 0 }
        ensures outlook { outlook_of result ≡ AllSucceed }
    {
        Fuse {
            left: None,
            failures: 0,
        }
    }

    /// Makes the nth call from now fail, unless no more failures can be counted.
    pub fn arm(&mut self, n: u64)
        requires { 0 < n }
        ensures armed { failures_of self.old + 1 < 2 ^ 64
            → outlook_of self.new ≡ FailsAfter (n - 1) }
        ensures failures { failures_of self.new ≡ failures_of self.old }
    {
        self.left = if self.failures < u64::MAX {
            Some(n - 1)
        } else {
            None
        };
    }

    /// Counts one call down. Returns whether it may go on.
    pub fn burn(&mut self) -> Result<(), DeviceFailed>
        ensures cause { HasCause (failures_of self.old) (failures_of self.new) result }
        ensures foreseen { IsForeseen (outlook_of self.old) (is_ok result) (outlook_of self.new) }
    {
        match self.left {
            None => Ok(()),
            Some(0) => {
                self.left = None;
                self.failures += 1;
                Err(DeviceFailed)
            }
            Some(n) => {
                self.left = Some(n - 1);
                Ok(())
            }
        }
    }
}
