// What a change does to the record of its device.
ghost use Rattle.std.specs.Prelude.{◌≡◌, MatchResult, None};
ghost use Rattle.std.specs.Option.{option_copied};
ghost use Rattle.devices.specs.Activation.{grants_of};
ghost use Rattle.device_changes.specs.Change.{row_of};
ghost use Rattle.lw_types.specs.declared.refusal.Refusal.TheVariants.{OutOfMemory};
ghost use Rattle.device_changes.specs.Device.{amended_device, record_with_change, last_granted};
ghost use Rattle.device_changes.specs.Device.{imported_device, retired_device, with_app_key};
ghost use Rattle.device_changes.specs.Device.{with_application, with_join_nonce, with_settings};
ghost use Rattle.device_changes.specs.Device.{without_queues, without_sessions};
ghost use Rattle.device_changes.specs.Table.{changed_by};

use crate::{Amendment, Change, Importing, LastJoinNonce, Retirement};
use devices::{Activation, Application, Device, ItemQueue, MacQueue};
use lw_types::{JoinNonce, Key, Refusal};
use std::alloc::Global;

// The record of a device that comes from another network.
pub(crate) fn imported_device(alloc: Global, importing: &Importing) -> Device
    ensures { result ≡ imported_device importing.now }
{
    let mut device = Device::provisioned(alloc, &importing.provisioning);
    device.last_dev_nonce = importing.last_dev_nonce;
    device.activation = granted_up_to(importing.last_join_nonce);
    device
}

// The last granted JoinNonce, without a session.
fn granted_up_to(last: LastJoinNonce) -> Activation
    ensures { result ≡ grants_of (last_granted last) None None }
{
    let granted = JoinNonce::new(last.get() as u32);
    Activation::new(granted, None, None).unwrap()
}

// A copy of the record, changed as the row of its DevEUI says.
pub(crate) fn changed_copy(
    alloc: Global,
    device: &Device,
    rows: &[Change],
) -> Result<Device, Refusal>
    ensures { MatchResult result
        (λ changed. changed ≡ changed_by rows.now device.now)
        (λ e. e ≡ OutOfMemory) }
{
    let mut changed = device.copy()?;
    if let Some(change) = row_of(rows, device.dev_eui.0) {
        change_device(alloc, &mut changed, change);
        return Ok(changed);
    }
    Ok(changed)
}

// The first row of this DevEUI.
fn row_of(rows: &[Change], dev_eui: u64) -> Option<&Change>
    ensures { option_copied result ≡ row_of rows.now dev_eui }
{
    rows.iter().find(|row| row.dev_eui().0 == dev_eui)
}

fn change_device(alloc: Global, device: &mut Device, change: &Change)
    ensures { device.new ≡ record_with_change change.now device.old }
{
    match change {
        Change::Import(_) => {}
        Change::Amend(amendment) => amend(alloc, device, amendment),
        Change::Retire(retirement) => retire(alloc, device, retirement),
    }
}

// Ends the device's sessions and drops what waits for it. Nobody knows its new AppKey.
fn retire(alloc: Global, device: &mut Device, retirement: &Retirement)
    ensures { device.new ≡ retired_device retirement.now device.old }
{
    end_sessions(device);
    drop_queues(alloc, device);
    device.app_key = retirement.app_key;
}

fn amend(alloc: Global, device: &mut Device, amendment: &Amendment)
    ensures { device.new ≡ amended_device amendment.now device.old }
{
    set(device, amendment);
    set_app_key(device, amendment.app_key);
    set_application(alloc, device, amendment.application);
    raise_join_nonce(device, amendment.last_join_nonce);
}

// Sets what is given of the values on which nothing else depends.
fn set(device: &mut Device, amendment: &Amendment)
    ensures { device.new ≡ with_settings amendment.now device.old }
{
    device.join_eui = amendment.join_eui.unwrap_or(device.join_eui);
    device.rx1_offset = amendment.rx1_offset.unwrap_or(device.rx1_offset);
    device.rx_delay = amendment.rx_delay.unwrap_or(device.rx_delay);
    device.last_dev_nonce = amendment.last_dev_nonce.unwrap_or(device.last_dev_nonce);
}

// Another AppKey ends the device's sessions.
fn set_app_key(device: &mut Device, app_key: Option<Key>)
    ensures { device.new ≡ with_app_key app_key device.old }
{
    if let Some(key) = app_key {
        if key != device.app_key {
            end_sessions(device);
            device.app_key = key;
        }
    }
}

// Another application gets nothing that waits for the device.
fn set_application(alloc: Global, device: &mut Device, application: Option<Application>)
    ensures { device.new ≡ with_application application device.old }
{
    if let Some(number) = application {
        if number != device.application {
            drop_queues(alloc, device);
            device.application = number;
        }
    }
}

// Raises the last granted JoinNonce.
fn raise_join_nonce(device: &mut Device, last: Option<LastJoinNonce>)
    ensures { device.new ≡ with_join_nonce last device.old }
{
    if let Some(last) = last {
        if let Some(join_nonce) = JoinNonce::new(last.get() as u32) {
            device.raise(join_nonce);
        }
    }
}

// Neither a current nor a pending session is left, so no answer is awaited.
fn end_sessions(device: &mut Device)
    ensures { device.new ≡ without_sessions device.old }
{
    let granted = device.activation.granted();
    device.activation = Activation::new(granted, None, None).unwrap();
    device.awaited = None;
}

// Nothing waits for the device any more.
fn drop_queues(alloc: Global, device: &mut Device)
    ensures { device.new ≡ without_queues device.old }
{
    device.awaited = None;
    device.mac_queue = MacQueue::empty(alloc);
    device.items = ItemQueue::empty(alloc);
}
