// How fast the copies that come on a link are taken.
use lw_types::Ranged;
use session_core::{LAST_MOMENT, Moment};

/// How fast the copies that come on a link are taken.
#[derive(Clone, Copy, Debug)]
pub enum CopyRate {
    /// As fast as they come.
    Unlimited,
    /// This number a second, and at most this number at once.
    PerSecond { copies: CopyCount, burst: CopyCount },
}

/// A number of copies.
pub type CopyCount = Ranged<1, 1_000_000>;

/// The copies that may come on a link now. Copies are paid for before they are handed in.
#[derive(Clone, Copy, Debug)]
pub struct Allowance {
    per_second: CopyCount,
    burst: CopyCount,
    // What may come, in thousandths of a copy, and when that was so.
    level: u64,
    at: Moment,
}

impl Allowance {
    ghost use Rattle.std.specs.Prelude.{◌≡◌, ◌<◌, ◌≤◌, ◌+◌, ◌-◌, ◌*◌, ◌^◌, ℕ};
    ghost use Rattle.std.specs.Prelude.{IfErr, MatchResult, None, Some};
    ghost use Rattle.std.specs.Prelude.{min};
    ghost use Rattle.std.specs.Int.{div_ceil};
    ghost use Rattle.lnsd_links.specs.declared.allowance.CopyRate.TheVariants.{PerSecond};
    ghost use Rattle.lnsd_links.specs.declared.allowance.CopyRate.TheVariants.{Unlimited};
    ghost use Rattle.lnsd_links.specs.Allowed.{allowance_at, IsFirstMoment, IsPaid};

    /// The allowance of a link that begins now: no copy may come yet. `None` if the link isn't
    /// limited.
    pub fn new(rate: CopyRate, now: Moment) -> Option<Self>
        ensures unlimited { rate ≡ Unlimited → result ≡ None }
        ensures limited { (copies : ℕ) (burst : ℕ) → rate ≡ PerSecond copies burst
            → result ≡ Some (record { per_second = copies; burst = burst; level = 0; at = now }) }
    {
        match rate {
            CopyRate::Unlimited => None,
            CopyRate::PerSecond { copies, burst } => Some(Allowance {
                per_second: copies,
                burst,
                level: 0,
                at: now,
            }),
        }
    }

    /// Pays for copies if they may come now. Otherwise nothing is changed, and the result is the
    /// first moment at which they may come. More copies at once than the burst may never come.
    pub fn pay(&mut self, copies: u64, now: Moment) -> Result<(), Moment>
        ensures paid { MatchResult result (λ _. IsPaid copies now self.old self.new)
            (λ moment. (self.new ≡ self.old) × (allowance_at self.old now < copies * 1000)) }
        ensures first { IfErr result (λ moment. moment + 1 < 2 ^ 63
            → IsFirstMoment copies self.old moment) }
    {
        let price = copies.saturating_mul(1000);
        let level = self.level_at(now);
        if level < price {
            return Err(self.moment_of(price));
        }
        self.level = level - price;
        self.at = self.at.max(now);
        Ok(())
    }

    // What may come at this moment, in thousandths of a copy.
    fn level_at(&self, now: Moment) -> u64
        ensures value { result ≡ allowance_at self.now now }
        ensures few { result ≤ 1000000000 }
    {
        let time = now.get().saturating_sub(self.at.get());
        let more = time.saturating_mul(self.per_second.get());
        self.level.saturating_add(more).min(self.burst.get() * 1000)
    }

    // The moment at which this has been earned, if it isn't there yet, or the last moment.
    fn moment_of(&self, price: u64) -> Moment
        ensures moment { result
            ≡ min (self.now.at + div_ceil (price - self.now.level) self.now.per_second)
            (2 ^ 63 - 1) }
        ensures rate { 0 < self.now.per_second }
        ensures burst { self.now.burst ≤ 1000000 }
    {
        let _burst = self.burst.get();
        let lacking = price.saturating_sub(self.level);
        let wait = lacking.div_ceil(self.per_second.get());
        let moment = self.at.get().saturating_add(wait);
        Moment::new(moment.min(LAST_MOMENT)).unwrap()
    }
}
