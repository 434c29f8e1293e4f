// What leaves the network because of an effect.
ghost use Rattle.std.specs.Prelude.{◌≡◌, IsOk, IsSome, MatchBool, MatchResult, None};
ghost use Rattle.lw_types.specs.declared.refusal.Refusal.TheVariants.{OutOfMemory};
ghost use Rattle.gateway_wire.specs.Emission.{FitsFrame, app_line, effect_frame, emission};
ghost use Rattle.gateway_wire.specs.Emission.{gateway_bytes};
ghost use Rattle.gateway_wire.specs.Put.{IsPut};

use crate::WireFrame;
use crate::answer::put_answer;
use crate::downlink::{downlink_frame, put_downlink};
use crate::report::report_line;
use crate::uplink::{UpFields, put_uplink, up_line};
use devices::{Application, Effect};
use link_messages::Line;
use lw_types::{Eui, Refusal};
use std::alloc::{AllocError, Global};

/// What leaves the network because of an effect, and on whose link.
#[derive(Clone, PartialEq, Eq, Drop)]
pub enum Emission {
    /// A frame, for a gateway.
    Gateway {
        gateway: Eui,
        frame: WireFrame,
    },
    /// A line, for an application.
    Application {
        application: Application,
        line: Line,
    },
}

impl Emission {
    ghost use Rattle.std.specs.Prelude.{IfOk};
    ghost use Rattle.gateway_wire.specs.Emission.{emission, FitsFrame};

    /// What leaves because of this effect. Payloads and reports go to the device's application,
    /// frames for the device go to the gateway that heard it best. Each is short enough for a frame
    /// of the wire.
    pub fn of(alloc: Global, effect: &Effect) -> Result<Emission, Refusal>
        ensures emission { MatchResult result (λ e. e ≡ emission effect.now)
            (λ e. e ≡ OutOfMemory) }
        ensures short { IfOk result FitsFrame }
    {
        match effect {
            Effect::Forward {
                application,
                session,
                counter,
                port,
                payload,
                copies,
                best,
            } => {
                let up = UpFields {
                    session,
                    counter: *counter,
                    port: *port,
                    payload,
                    copies: *copies,
                    best,
                };
                Ok(Emission::Application {
                    application: *application,
                    line: up_line(alloc, &up)?,
                })
            }
            Effect::Report {
                application,
                dev_eui,
                report,
            } => Ok(Emission::Application {
                application: *application,
                line: report_line(alloc, *dev_eui, report)?,
            }),
            Effect::Accept { downlink, .. } | Effect::Down { downlink, .. } => {
                Ok(Emission::Gateway {
                    gateway: downlink.gateway,
                    frame: downlink_frame(alloc, downlink)?,
                })
            }
        }
    }
}

/// Appends the frame that this effect sends, which fits the wire. Room for the whole frame is
/// reserved at once. If memory runs out, the bytes that were there stay, and others may come after
/// them.
pub fn put_effect(alloc: Global, effect: &Effect, bytes: &mut Vec<u8>) -> Result<(), AllocError>
    ensures put { IsPut (effect_frame effect.now) bytes.old.items result bytes.new.items }
    ensures fits { IsOk result → FitsFrame (emission effect.now) }
{
    match effect {
        Effect::Forward {
            session,
            counter,
            port,
            payload,
            copies,
            best,
            ..
        } => {
            let up = UpFields {
                session,
                counter: *counter,
                port: *port,
                payload,
                copies: *copies,
                best,
            };
            put_uplink(alloc, &up, bytes)
        }
        Effect::Report {
            dev_eui,
            report,
            ..
        } => {
            let line = report_line(alloc, *dev_eui, report)?;
            put_answer(line.as_str().as_bytes(), bytes)
        }
        Effect::Accept { downlink, .. } | Effect::Down { downlink, .. } => {
            put_downlink(alloc, downlink, bytes)
        }
    }
}

/// The line that this effect sends to an application. `None`, whether or not memory is available,
/// if the effect is for a gateway.
pub fn app_line(alloc: Global, effect: &Effect) -> Result<Option<Line>, Refusal>
    ensures { MatchResult result (λ line. line ≡ app_line effect.now)
        (λ e. (e ≡ OutOfMemory) × IsSome (app_line effect.now)) }
{
    if is_for_gateway(effect) {
        return Ok(None);
    }
    match Emission::of(alloc, effect)? {
        Emission::Application { line, .. } => Ok(Some(line)),
        Emission::Gateway { .. } => Ok(None),
    }
}

/// The frame, with its length, that this effect sends to a gateway. `None`, whether or not memory
/// is available, if the effect is for an application.
pub fn gateway_bytes(alloc: Global, effect: &Effect) -> Result<Option<WireFrame>, Refusal>
    ensures { MatchResult result (λ frame. frame ≡ gateway_bytes effect.now)
        (λ e. (e ≡ OutOfMemory) × IsSome (gateway_bytes effect.now)) }
{
    if !is_for_gateway(effect) {
        return Ok(None);
    }
    match Emission::of(alloc, effect)? {
        Emission::Gateway { frame, .. } => Ok(Some(frame)),
        Emission::Application { .. } => Ok(None),
    }
}

// Whether what leaves by an effect is for a gateway.
fn is_for_gateway(effect: &Effect) -> bool
    ensures { MatchBool result
        ((app_line effect.now ≡ None) × IsSome (gateway_bytes effect.now))
        ((gateway_bytes effect.now ≡ None) × IsSome (app_line effect.now)) }
{
    match effect {
        Effect::Forward { .. } => false,
        Effect::Report { .. } => false,
        Effect::Accept { .. } => true,
        Effect::Down { .. } => true,
    }
}
