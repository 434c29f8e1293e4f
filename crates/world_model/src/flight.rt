// What is begun, in the model.
use devices::Command;

/// How far the commit of a batch is.
#[derive(Clone, Copy, PartialEq, Eq)]
pub enum PlainStage {
    Begun,
    Written,
    BodySynced,
    GateWritten,
    Durable,
    Stopped,
    Unsure,
}

/// A batch.
#[derive(Drop)]
pub struct PlainFlight {
    pub commands: Vec<Command>,
    pub stage: PlainStage,
}

/// What is begun and not released.
#[derive(Drop)]
pub enum PlainUnderWay {
    Nothing,
    Batch(PlainFlight),
    /// A batch, and one after it.
    Batches(PlainFlight, PlainFlight),
    /// A checkpoint, of which this number of device calls are left.
    Checkpoint(u64),
    /// A checkpoint of which a device call failed.
    FailedCheckpoint,
}

impl PlainStage {
    ghost use Rattle.std.specs.Prelude.{◌≡◌};
    ghost use Rattle.store.specs.Flights.{failed_stage, next_stage};
    ghost use Rattle.world_model.specs.Plain.{stage_of};

    // The stage after a device call of the batch.
    fn next(self) -> Self
        ensures { stage_of result ≡ next_stage (stage_of self) }
    {
        match self {
            PlainStage::Begun => PlainStage::Written,
            PlainStage::Written => PlainStage::BodySynced,
            PlainStage::BodySynced => PlainStage::GateWritten,
            PlainStage::GateWritten => PlainStage::Durable,
            PlainStage::Durable | PlainStage::Stopped | PlainStage::Unsure => self,
        }
    }

    // The stage after one that failed.
    fn failed(self) -> Self
        ensures { stage_of result ≡ failed_stage (stage_of self) }
    {
        match self {
            PlainStage::Begun | PlainStage::Written => PlainStage::Stopped,
            PlainStage::BodySynced | PlainStage::GateWritten => PlainStage::Unsure,
            PlainStage::Durable | PlainStage::Stopped | PlainStage::Unsure => self,
        }
    }
}

impl PlainUnderWay {
    ghost use Rattle.std.specs.Prelude.{◌≡◌};
    ghost use Rattle.store.specs.Flights.{all_failed, all_succeeded};
    ghost use Rattle.world.specs.Course.{checkpoint_after_call, checkpoint_after_failure};
    ghost use Rattle.world_model.specs.Plain.{IsFollowed, checkpoint_of, flights_of};

    /// The same with a second batch after the one that is begun.
    pub fn followed_by(self, second: PlainFlight) -> Self
        ensures { IsFollowed self second result }
    {
        match self {
            PlainUnderWay::Batch(first) => PlainUnderWay::Batches(first, second),
            other => other,
        }
    }

    /// After a device call that succeeded. The gate of a batch waits while the body of the one
    /// after it is written, and then one call syncs both.
    pub fn called(self) -> Self
        ensures flights { flights_of result ≡ all_succeeded (flights_of self) }
        ensures checkpoint { checkpoint_of result ≡ checkpoint_after_call (checkpoint_of self) }
    {
        match self {
            PlainUnderWay::Batch(flight) => PlainUnderWay::Batch(PlainFlight {
                commands: flight.commands,
                stage: flight.stage.next(),
            }),
            PlainUnderWay::Batches(first, second) => {
                let waits = second.stage == PlainStage::Begun;
                let stage = if waits {
                    first.stage
                } else {
                    first.stage.next()
                };
                PlainUnderWay::Batches(
                    PlainFlight {
                        commands: first.commands,
                        stage,
                    },
                    PlainFlight {
                        commands: second.commands,
                        stage: second.stage.next(),
                    },
                )
            }
            PlainUnderWay::Checkpoint(left) if left > 1 => PlainUnderWay::Checkpoint(left - 1),
            PlainUnderWay::Checkpoint(_) | PlainUnderWay::Nothing => PlainUnderWay::Nothing,
            PlainUnderWay::FailedCheckpoint => PlainUnderWay::FailedCheckpoint,
        }
    }

    /// After one that failed.
    pub fn failed(self) -> Self
        ensures flights { flights_of result ≡ all_failed (flights_of self) }
        ensures checkpoint { checkpoint_of result ≡ checkpoint_after_failure (checkpoint_of self) }
    {
        match self {
            PlainUnderWay::Batch(flight) => PlainUnderWay::Batch(PlainFlight {
                commands: flight.commands,
                stage: flight.stage.failed(),
            }),
            PlainUnderWay::Batches(first, second) => PlainUnderWay::Batches(
                PlainFlight {
                    commands: first.commands,
                    stage: first.stage.failed(),
                },
                PlainFlight {
                    commands: second.commands,
                    stage: second.stage.failed(),
                },
            ),
            PlainUnderWay::Checkpoint(_) | PlainUnderWay::FailedCheckpoint =>
                PlainUnderWay::FailedCheckpoint,
            PlainUnderWay::Nothing => PlainUnderWay::Nothing,
        }
    }
}
