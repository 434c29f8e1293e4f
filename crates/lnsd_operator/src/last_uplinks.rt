// How each device was last heard.
ghost use Rattle.std.specs.Prelude.{◌≡◌, IfErr, IfOk, length};
ghost use Rattle.lw_types.specs.declared.refusal.Refusal.TheVariants.{OutOfMemory};

use devices::Device;
use gateway_wire::{device_line, last_line};
use lw_types::{Reception, Refusal};
use session_core::{ClosedFrame, Moment};
use sessions::Slots;
use std::alloc::{AllocError, Global};

// An accepted uplink, at the gateway that heard it best.
#[derive(Clone, Copy, PartialEq, Eq)]
struct LastUplink {
    moment: Moment,
    reception: Reception,
}

/// The last accepted uplink of each device in this life, by slots. It is in memory only.
#[derive(Clone, Drop)]
pub struct LastUplinks {
    by_slot: Vec<Option<LastUplink>>,
}

impl LastUplinks {
    /// No device was heard yet. All the memory that it ever needs is taken here: 40 bytes a slot.
    pub fn new(alloc: Global, slots: Slots) -> Result<Self, Refusal>
        ensures slots { IfOk result (λ last. length last.by_slot.items ≡ slots) }
        ensures refused { IfErr result (λ e. e ≡ OutOfMemory) }
    {
        let mut by_slot = Vec::new(alloc);
        by_slot.resize(slots.get() as usize, None)?;
        Ok(LastUplinks { by_slot })
    }

    /// Notes a frame whose window was closed at this moment, if it was an accepted uplink. What was
    /// noted of a later moment stays, since several threads note uplinks.
    pub fn note(&mut self, closed: &ClosedFrame, moment: Moment) {
        let ClosedFrame::Decided(decided) = closed else {
            return;
        };
        if decided.is_join_request {
            return;
        }
        if let Some(last) = self.by_slot.get_mut(decided.slot as usize)
            && last.is_none_or(|it| it.moment.get() <= moment.get())
        {
            *last = Some(LastUplink {
                moment,
                reception: decided.best.reception,
            });
        }
    }

    /// The list of the devices ([`gateway_wire::list_text`]). Each line has four more words: the
    /// moment of the device's last uplink, the gateway that heard it best, SNR in quarter dB and
    /// RSSI in dBm. Each is `-` if no uplink came in this life. The last line has no more words.
    /// Refused with `OutOfMemory` if memory runs out.
    pub fn list(&self, alloc: Global, devices: &[Device], seq: u64) -> Result<String, Refusal> {
        let mut text = String::new(alloc);
        for (slot, device) in devices.iter().enumerate() {
            let line = device_line(alloc, slot, device)?;
            text.push_str(line.as_str().trim_end())?;
            let last = self.by_slot.get(slot).copied().flatten();
            text.push_str(last_words(alloc, last)?.as_str())?;
        }
        text.push_str(last_line(alloc, devices.len(), seq)?.as_str())?;
        Ok(text)
    }
}

// The words after a line of the list, with a space before each, and the newline.
fn last_words(alloc: Global, last: Option<LastUplink>) -> Result<String, AllocError> {
    let Some(LastUplink { moment, reception }) = last else {
        return String::from_str(alloc, " - - - -\n");
    };
    let moment = moment.get();
    let Reception {
        gateway,
        snr,
        rssi,
        ..
    } = reception;
    format!(in alloc; " {moment} {gateway} {snr} {rssi}\n")
}
