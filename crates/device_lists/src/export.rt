// Writing the list of a store's devices.
ghost use Rattle.std.specs.Prelude.{◌≡◌, ◌∷◌, ◌++◌, [], IfOk, string_bytes, unwrap_or};
ghost use Rattle.std.specs.Fmt.{decimal};
ghost use Rattle.lw_types.specs.Hex.{eui_text};
ghost use Rattle.device_lists.specs.Export.{csv_line, has_session, key_field, csv_text};
ghost use Rattle.device_lists.specs.Export.{nonce_field, settings_values, values_text};
ghost use Rattle.device_lists.specs.Values.{yes_or_no};

use devices::{Activation, Device};
use lw_types::{JoinNonce, Key};
use std::alloc::{AllocError, Global};

const HEAD: &str =
    "DevEUI,JoinEUI,AppKey,Application,Offset,Delay,LastDevNonce,LastJoinNonce,Heard,Session\n";

/// Whether a list shows AppKeys.
#[derive(Clone, Copy, Debug, PartialEq, Eq)]
pub enum AppKeys {
    Shown,
    Hidden,
}

/// The list of these devices, a line each. Fails only if memory runs out.
pub fn list_of(alloc: Global, devices: &[Device], keys: AppKeys) -> Result<String, AllocError>
    ensures { IfOk result (λ text. string_bytes text ≡ csv_text keys devices.now) }
{
    let mut text = String::from_str(alloc, HEAD)?;
    for device in devices {
        let line = csv_line(alloc, device, keys)?;
        text.push_str(line.as_str())?;
    }
    Ok(text)
}

fn csv_line(alloc: Global, device: &Device, keys: AppKeys) -> Result<String, AllocError>
    ensures { IfOk result (λ text. string_bytes text ≡ csv_line keys device.now) }
{
    let key = key_field(alloc, &device.app_key, keys)?;
    let nonce = nonce_field(alloc, device.last_dev_nonce)?;
    let settings = settings_text(alloc, device)?;
    let progress = progress_text(alloc, device, nonce.as_str())?;
    let mut line = identity_text(alloc, device, key.as_str())?;
    line.push_str(settings.as_str())?;
    line.push_str(progress.as_str())?;
    Ok(line)
}

// Who the device is.
fn identity_text(alloc: Global, device: &Device, key: &str) -> Result<String, AllocError>
    ensures { IfOk result (λ text. string_bytes text ≡ values_text
        (eui_text device.now.dev_eui ∷ eui_text device.now.join_eui ∷ key.now ∷ []) ++ 44 ∷ []) }
{
    let (dev_eui, join_eui) = (device.dev_eui, device.join_eui);
    Ok(format!(in alloc; "{dev_eui},{join_eui},{key},")?)
}

// What is set for it.
fn settings_text(alloc: Global, device: &Device) -> Result<String, AllocError>
    ensures { IfOk result
        (λ text. string_bytes text ≡ values_text (settings_values device.now) ++ 44 ∷ []) }
{
    let application = device.application.get();
    let (offset, delay) = (device.rx1_offset.get(), device.rx_delay.get());
    Ok(format!(in alloc; "{application},{offset},{delay},")?)
}

// How far it has come.
fn progress_text(alloc: Global, device: &Device, nonce: &str) -> Result<String, AllocError>
    ensures { IfOk result (λ text. string_bytes text ≡ values_text (nonce.now
        ∷ decimal (unwrap_or device.now.activation.granted 0) ∷ decimal device.now.heard
        ∷ yes_or_no (has_session device.now.activation) ∷ []) ++ 10 ∷ []) }
{
    let granted = last_granted_of(&device.activation);
    let heard = device.heard.get();
    let session = session_field(&device.activation);
    Ok(format!(in alloc; "{nonce},{granted},{heard},{session}\n")?)
}

#[tactic(auto, unfolding(crate::specs::Export::key_field))]
fn key_field(alloc: Global, key: &Key, keys: AppKeys) -> Result<String, AllocError>
    ensures { IfOk result (λ text. string_bytes text ≡ key_field keys key.now) }
{
    match keys {
        AppKeys::Shown => key.reveal(alloc),
        AppKeys::Hidden => Ok(String::new(alloc)),
    }
}

#[tactic(auto, unfolding(crate::specs::Export::nonce_field))]
fn nonce_field(alloc: Global, nonce: Option<u16>) -> Result<String, AllocError>
    ensures { IfOk result (λ text. string_bytes text ≡ nonce_field nonce) }
{
    match nonce {
        Some(nonce) => Ok(format!(in alloc; "{nonce}")?),
        None => Ok(String::new(alloc)),
    }
}

// The last granted JoinNonce, 0 if there is none.
fn last_granted_of(activation: &Activation) -> u32
    ensures { result ≡ unwrap_or activation.now.granted 0 }
{
    activation.granted().map_or(0, JoinNonce::get)
}

#[tactic(auto, unfolding(crate::specs::Values::yes_or_no))]
fn session_field(activation: &Activation) -> &'static str
    ensures { result.now ≡ yes_or_no (has_session activation.now) }
{
    if activation.current().is_some() || activation.pending().is_some() {
        "yes"
    } else {
        "no"
    }
}
