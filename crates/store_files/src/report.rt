// What is printed about a restored store.
ghost use Rattle.std.specs.Prelude.{◌≡◌, IfOk, string_bytes, unwrap_or};
ghost use Rattle.store_files.specs.Report.{above_line, fewest_left, grants_left, head_text};
ghost use Rattle.store_files.specs.Report.{restored_text};

use devices::Device;
use lw_types::JoinNonce;
use std::alloc::{AllocError, Global};

// The last JoinNonce (TS001-1.0.4 §6.2.6).
const LAST_NONCE: u32 = 0xFF_FFFF;

/// The number of devices, how many of them were raised by a record, how many joins are left to the
/// device that has the fewest, and from where the JoinNonces and the count of uplinks of each
/// device continue.
pub(crate) fn report_of(
    alloc: Global,
    recorded: usize,
    devices: &[Device],
) -> Result<String, AllocError>
    ensures { IfOk result (λ text. string_bytes text ≡ restored_text recorded devices.now) }
{
    let mut text = report_head(alloc, recorded, devices)?;
    for device in devices {
        let line = above_line(alloc, device)?;
        text.push_str(line.as_str())?;
    }
    Ok(text)
}

#[tactic(auto, unfolding(lw_types::specs::Words::line_of))]
fn report_head(alloc: Global, recorded: usize, devices: &[Device]) -> Result<String, AllocError>
    ensures { IfOk result (λ text. string_bytes text ≡ head_text recorded devices.now) }
{
    let (count, left) = (devices.len(), fewest_left(devices));
    let text = format!(in alloc; "devices {count}\nrecorded {recorded}\ngrants_left {left}\n")?;
    Ok(text)
}

#[tactic(auto, unfolding(lw_types::specs::Words::line_of))]
fn above_line(alloc: Global, device: &Device) -> Result<String, AllocError>
    ensures { IfOk result (λ text. string_bytes text ≡ above_line device.now) }
{
    let dev_eui = device.dev_eui;
    let granted = granted_number(device);
    let heard = device.heard.get();
    let text = format!(in alloc; "above {dev_eui} {granted} {heard}\n")?;
    Ok(text)
}

// The last granted JoinNonce, 0 if there is none.
fn granted_number(device: &Device) -> u32
    ensures { result ≡ unwrap_or device.now.activation.granted 0 }
{
    device.activation.granted().map_or(0, JoinNonce::get)
}

// How many joins are left to the device that has the fewest.
fn fewest_left(devices: &[Device]) -> u32
    ensures { result ≡ fewest_left devices.now }
{
    let mut fewest = LAST_NONCE;
    for device in devices {
        fewest = fewest.min(grants_left(device));
    }
    fewest
}

// How many joins can still be granted to a device.
fn grants_left(device: &Device) -> u32
    ensures { result ≡ grants_left device.now }
{
    LAST_NONCE.saturating_sub(granted_number(device))
}
