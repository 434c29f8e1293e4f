// A ring of effects that may leave.
ghost use Rattle.std.specs.Prelude.{◌≡◌, ◌<◌, ◌↔◌, ◌++◌, ◌∷◌, [], length, IfOk, IfErr, IfSome};
ghost use Rattle.std.specs.Prelude.{IfNone, IsOk, IsSome, IsTrue, OnOk};
ghost use Rattle.lw_types.specs.declared.refusal.Refusal.TheVariants.{OutOfMemory};
ghost use Rattle.flusher.specs.Released.{effect_of};
ghost use Rattle.outbox.specs.Ring.{all_put, put_in, room_of, seen_by, taken_from, AreEnds, Ends};
ghost use Rattle.outbox.specs.Ring.{IsEndOf, SameEnded, SameInlet, SameOutlet};

use devices::Effect;
use flusher::Released;
use lw_types::Refusal;
use rtrb::{Consumer, Finished, Producer, PushError, RingBuffer};
use std::alloc::Global;

/// The end at which effects are put into a ring. It takes a [`Released`] and no bare effect, so
/// what is put in is durable.
#[derive(Drop)]
pub struct Outlet {
    producer: Producer<Released>,
}

/// The end at which effects are taken.
#[derive(Drop)]
pub struct Inlet {
    consumer: Consumer<Released>,
}

/// The word that nothing more is put into a ring.
#[derive(Drop)]
pub struct Ended {
    finished: Finished<Released>,
}

/// A ring with room for this number of effects. Refused with `OutOfMemory` if memory runs out. No
/// other call takes memory.
pub fn ring(alloc: Global, slots: usize) -> Result<(Outlet, Inlet), Refusal>
    ensures ends { IfOk result (λ r. AreEnds r.0 r.1) }
    ensures outlet { IfOk result (λ r. (put_in r.0 ≡ []) × (room_of r.0 ≡ slots)) }
    ensures inlet { IfOk result (λ r. (taken_from r.1 ≡ []) × (seen_by r.1 ≡ [])) }
    ensures refused { IfErr result (λ e. e ≡ OutOfMemory) }
{
    let (producer, consumer) = RingBuffer::new(alloc, slots)?;
    Ok((Outlet { producer }, Inlet { consumer }))
}

impl Outlet {
    /// Puts an effect into the ring. If the ring is full, returns the effect and changes nothing.
    pub fn put(&mut self, released: Released) -> Result<(), Released>
        ensures ring { SameOutlet self.old self.new }
        ensures put { OnOk result (put_in self.new ≡ put_in self.old ++ effect_of released ∷ []) }
        ensures full { IfErr result
            (λ back. (back ≡ released) × (put_in self.new ≡ put_in self.old)) }
        ensures room { 0 < room_of self.old → IsOk result }
    {
        match self.producer.push(released) {
            Ok(()) => Ok(()),
            Err(PushError::Full(back)) => Err(back),
        }
    }

    /// Ends the putting: the returned word says what was put. Returns `None` if the other end has
    /// been dropped.
    pub fn finish(self) -> Option<Ended>
        ensures { IfSome result (λ ended. Ends self ended) }
    {
        let Outlet { producer } = self;
        let finished = producer.finish()?;
        Some(Ended { finished })
    }
}

impl Inlet {
    /// Takes the oldest effect of the ring, if one is seen there.
    pub fn take(&mut self) -> Option<Effect>
        ensures ring { SameInlet self.old self.new }
        ensures taken { IfSome result
            (λ effect. taken_from self.new ≡ taken_from self.old ++ effect ∷ []) }
        ensures none { IfNone result
            ((taken_from self.new ≡ taken_from self.old) × (seen_by self.new ≡ [])) }
        ensures seen { 0 < length (seen_by self.old) → IsSome result }
    {
        match self.consumer.pop() {
            Ok(released) => Some(released.into_effect()),
            Err(_) => None,
        }
    }

    /// Sees everything that was put, if both ends are in one thread: what was taken is a beginning
    /// of it. In a server the two ends are in two threads, so only tests use this.
    pub fn look(&mut self, outlet: &mut Outlet)
        requires { AreEnds outlet.old self.old }
        ensures ring { SameInlet self.old self.new × SameOutlet outlet.old outlet.new }
        ensures same { (taken_from self.new ≡ taken_from self.old)
            × (put_in outlet.new ≡ put_in outlet.old) }
        ensures all { taken_from self.new ++ seen_by self.new ≡ put_in outlet.new }
    {
        let _ = self.consumer.slots_beside(&mut outlet.producer);
    }

    /// Whether everything that was put has been taken, once nothing more is put. If so, what was
    /// taken is what was put, in order, each effect once. It is for a caller that has the word in
    /// the inlet's thread, for example a test. A server's sender doesn't have the word, and takes
    /// until [`Inlet::is_finished`].
    pub fn is_drained(&mut self, ended: &mut Ended) -> bool
        requires { IsEndOf ended.old self.old }
        ensures ring { SameInlet self.old self.new × SameEnded ended.old ended.new }
        ensures same { (taken_from self.new ≡ taken_from self.old)
            × (all_put ended.new ≡ all_put ended.old) }
        ensures all { taken_from self.new ++ seen_by self.new ≡ all_put ended.new }
        ensures value { IsTrue result ↔ (seen_by self.new ≡ []) }
        ensures drained { IsTrue result → taken_from self.new ≡ all_put ended.new }
    {
        self.consumer.slots_after(&mut ended.finished) == 0
    }

    /// Whether the other end is finished or was dropped; then nothing more is put. No contract says
    /// what it returns, and when.
    pub fn is_finished(&mut self) -> bool
        ensures ring { SameInlet self.old self.new }
        ensures same { taken_from self.new ≡ taken_from self.old }
    {
        self.consumer.is_abandoned()
    }
}
