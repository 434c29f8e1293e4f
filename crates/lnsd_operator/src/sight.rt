// The events that an operator who watches is sent.
use crate::FrameName;
use devices::{Effect, SessionName};
use gateway_wire::Recipient;
use lw_types::{Eui, Reception, Refusal};
use session_core::ClosedFrame;
use std::alloc::{AllocError, Global};

/// An event that operators may want to know of.
#[derive(Clone, Copy, PartialEq, Eq)]
pub enum Sight {
    /// A frame, or a copy of one, was refused. `reception` is the best one.
    Refused {
        refusal: Refusal,
        frame: FrameName,
        reception: Reception,
    },
    /// A device joined: its accept is durable and leaves by this gateway.
    Joined {
        session: SessionName,
        gateway: Eui,
    },
    /// A link greeted.
    Linked(Recipient),
    /// A link lost its name to a later link.
    TakenOver(Recipient),
    /// A link ended.
    Ended(Recipient),
    /// A link is read no further because of what it sent, after its greeting or before.
    Faulted(Option<Recipient>),
    /// A link didn't greet in time.
    Silent,
    /// A link greeted with a name that isn't listed, and is closed.
    Unlisted(Recipient),
    /// This number of effects for this name weren't sent.
    Dropped(Recipient, u64),
    /// The whole table was written to the disk.
    Checkpoint,
    /// A sync of the disk took this number of milliseconds.
    SlowSync(u64),
}

impl Sight {
    /// The event of a refused copy of a frame.
    pub fn of_copy(refusal: Refusal, frame: FrameName, reception: Reception) -> Self {
        Sight::Refused {
            refusal,
            frame,
            reception,
        }
    }

    /// The event of a frame that was refused when its window was closed; `None` if it was decided.
    pub fn of_closed(closed: &ClosedFrame) -> Option<Self> {
        let ClosedFrame::Refused { heard, refusal } = closed else {
            return None;
        };
        Some(Sight::Refused {
            refusal: *refusal,
            frame: FrameName::of(heard.phy_payload.as_slice()),
            reception: heard.hearings.best().reception,
        })
    }

    /// The event of a granted join, if this effect is its accept.
    pub fn of_effect(effect: &Effect) -> Option<Self> {
        match effect {
            Effect::Accept { session, downlink } => Some(Sight::Joined {
                session: *session,
                gateway: downlink.gateway,
            }),
            _ => None,
        }
    }

    /// The line of the event, without a newline.
    pub fn line(self, alloc: Global) -> Result<String, AllocError> {
        match self {
            Sight::Refused {
                refusal,
                frame,
                reception,
            } => heard_line(alloc, refusal, frame, reception),
            Sight::Joined { session, gateway } => {
                let SessionName {
                    dev_eui,
                    join_nonce,
                } = session;
                let nonce = join_nonce.get();
                format!(in alloc; "joined {dev_eui} {nonce} {gateway}")
            }
            Sight::Linked(name) => link_line(alloc, "linked", name),
            Sight::TakenOver(name) => link_line(alloc, "taken_over", name),
            Sight::Ended(name) => link_line(alloc, "ended", name),
            Sight::Faulted(Some(name)) => link_line(alloc, "faulted", name),
            Sight::Faulted(None) => String::from_str(alloc, "faulted"),
            Sight::Silent => String::from_str(alloc, "silent"),
            Sight::Unlisted(name) => link_line(alloc, "unlisted", name),
            Sight::Dropped(name, count) => {
                let name = name_words(alloc, name)?;
                format!(in alloc; "dropped {name} {count}")
            }
            Sight::Checkpoint => String::from_str(alloc, "checkpoint"),
            Sight::SlowSync(millis) => format!(in alloc; "slow_sync {millis}"),
        }
    }
}

// The refusal by its number and its name, the frame, and how it was heard: the gateway, Hz, data
// rate, SNR in quarter dB, RSSI in dBm.
fn heard_line(
    alloc: Global,
    refusal: Refusal,
    frame: FrameName,
    reception: Reception,
) -> Result<String, AllocError> {
    let number = refusal.number();
    let frame = frame.words(alloc)?;
    let Reception {
        gateway,
        frequency,
        data_rate,
        snr,
        rssi,
    } = reception;
    let heard = format!(in alloc; "{gateway} {frequency} {data_rate} {snr} {rssi}")?;
    format!(in alloc; "refused {number} {refusal:?} {frame} {heard}")
}

fn link_line(alloc: Global, what: &str, name: Recipient) -> Result<String, AllocError> {
    let name = name_words(alloc, name)?;
    format!(in alloc; "{what} {name}")
}

fn name_words(alloc: Global, name: Recipient) -> Result<String, AllocError> {
    match name {
        Recipient::Gateway(gateway) => format!(in alloc; "gateway {gateway}"),
        Recipient::Application(application) => {
            let number = application.get();
            format!(in alloc; "application {number}")
        }
    }
}
