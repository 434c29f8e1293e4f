// The list of a network's devices.
ghost use Rattle.std.specs.Prelude.{◌≡◌, MatchResult, OnOk, IfOk, ◌++◌, unwrap_or};
ghost use Rattle.std.specs.String.{string_bytes};
ghost use Rattle.lw_types.specs.declared.refusal.Refusal.TheVariants.{OutOfMemory};
ghost use Rattle.gateway_wire.specs.DeviceList.{device_line, last_line, list_text};

use devices::Device;
use lw_types::{JoinNonce, Refusal};
use std::alloc::{AllocError, Global};
use std::fmt;

/// A line for each device of a table, in order of slot, and a last line. The last line has the
/// number of devices, and `seq`, the number of the last decision. Each line ends with a newline.
pub fn list_text(alloc: Global, devices: &[Device], seq: u64) -> Result<String, Refusal>
    ensures { MatchResult result (λ text. string_bytes text ≡ list_text devices.now seq)
        (λ e. e ≡ OutOfMemory) }
{
    let mut text = String::new(alloc);
    for (slot, device) in devices.iter().enumerate() {
        let line = device_line(alloc, slot, device)?;
        text.push_str(line.as_str())?;
    }
    let last = last_line(alloc, devices.len(), seq)?;
    text.push_str(last.as_str())?;
    Ok(text)
}

/// The last line of a list: the number of devices, and the number of the last decision.
#[tactic(auto, unfolding(lw_types::specs::Words::line_of))]
pub fn last_line(alloc: Global, count: usize, seq: u64) -> Result<String, AllocError>
    ensures { IfOk result (λ text. string_bytes text ≡ last_line count seq) }
{
    let text = format!(in alloc; "devices {count} seq {seq}\n")?;
    Ok(text)
}

/// The line of a device: slot, DevEUI, last JoinNonce granted, the current session with its
/// counters, the number of waiting items, and the number of uplinks counted.
#[tactic(auto, unfolding(lw_types::specs::Words::line_of))]
pub fn device_line(alloc: Global, slot: usize, device: &Device) -> Result<String, AllocError>
    ensures { IfOk result (λ text. string_bytes text ≡ device_line slot device.now) }
{
    let dev_eui = device.dev_eui;
    let granted = nonce_number(device.activation.granted());
    let traffic = Traffic(device);
    let text = format!(in alloc; "{slot} {dev_eui} {granted} {traffic}\n")?;
    Ok(text)
}

// The current session with its counters, the number of waiting items, and the number of uplinks
// counted.
#[derive(Clone, Copy)]
struct Traffic<'a>(&'a Device);

impl fmt::Display for Traffic<'_> {
    ghost use Rattle.std.specs.Prelude.{Some};
    ghost use Rattle.lw_types.specs.Words.{line_of};
    ghost use Rattle.gateway_wire.specs.DeviceList.{traffic_words};

    ghost output = { λ t. Some (line_of (traffic_words t.0.now)) };

    #[tactic(auto, unfolding(lw_types::specs::Words::line_of))]
    fn fmt<W: fmt::Write>(&self, f: &mut fmt::Formatter<W>) -> fmt::Result {
        let items = self.0.items.as_slice().len();
        let heard = self.0.heard.get();
        match self.0.activation.current() {
            None => write!(f, "- - - {items} {heard}"),
            Some(current) => {
                let nonce = current.session.join_nonce.get();
                let (last_up, next_down) = (current.last_up, current.next_down.get());
                write!(f, "{nonce} {last_up} {next_down} {items} {heard}")
            }
        }
    }
}

// The number of a JoinNonce, 0 if there is none.
fn nonce_number(join_nonce: Option<JoinNonce>) -> u32
    ensures { result ≡ unwrap_or join_nonce 0 }
{
    match join_nonce {
        None => 0,
        Some(join_nonce) => join_nonce.get(),
    }
}
