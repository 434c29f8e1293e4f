// Items that wait in a table.
ghost use Rattle.std.specs.Prelude.{◌≡◌, ◌≤◌};
ghost use Rattle.device_changes.specs.Waiting.{waiting_for, waiting_in};

use devices::Device;
use sessions::Table;

/// How many items wait in a table, counting those whose answers are awaited. The difference between
/// two tables is what a change dropped.
pub fn waiting_items(table: &Table) -> usize
    ensures { result ≡ waiting_in table.now }
{
    let _most = table.slots().get();
    let mut waiting = 0;
    for device in table.devices() {
        waiting += waiting_for(device);
    }
    waiting
}

// The items of a device that are queued, and the one whose answer is awaited.
fn waiting_for(device: &Device) -> usize
    ensures value { result ≡ waiting_for device.now }
    ensures few { result ≤ 17 }
{
    let queued = device.items.as_slice().len();
    if device.awaited.is_some() {
        queued + 1
    } else {
        queued
    }
}
