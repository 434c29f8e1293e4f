// A table to which devices come from another network.
ghost use Rattle.std.specs.Prelude.{◌≡◌, ◌<◌, ◌∷◌, ◌++◌, [], length, IfOk, MatchResult, None};
ghost use Rattle.sessions.specs.Marks.{IsSound};
ghost use Rattle.sessions.specs.Table.{empty_table, slot_of};
ghost use Rattle.device_changes.specs.Device.{imported_device};
ghost use Rattle.device_changes.specs.Faults.{faults_of, IsRefusedFor};
ghost use Rattle.device_changes.specs.Marks.{CoversImported};
ghost use Rattle.device_changes.specs.Table.{imported_devices, imported_table, CanTake};

use crate::device::imported_device;
use crate::{Change, Importing, Refused, changed_table};
use lw_types::NetId;
use sessions::{Slots, Table};
use std::alloc::Global;

/// The table of a new network, in which every change is made ([`changed_table`]): the imported
/// devices are in the order of their rows. The table is sound, and covers each mark of an imported
/// device with a JoinNonce up to its last one.
pub fn imported_table(
    alloc: Global,
    net_id: NetId,
    slots: Slots,
    rows: &[Change],
) -> Result<Table, Refused>
    ensures imported { MatchResult result
        (λ t. (faults_of (empty_table net_id slots) rows.now ≡ [])
        × (t ≡ imported_table net_id slots rows.now))
        (λ refused. IsRefusedFor (faults_of (empty_table net_id slots) rows.now) refused) }
    ensures sound { IfOk result (λ t. IsSound t) }
    ensures covers { IfOk result (λ t. CoversImported rows.now t) }
{
    sessions::laws::no_mark_stands_twice();
    match Table::new(alloc, net_id, slots) {
        Ok(table) => changed_table(alloc, &table, rows),
        Err(_) => Err(Refused::OutOfMemory),
    }
}

// Puts the device of a row, if it is an import, at the next slot. Takes no memory.
pub(crate) fn bring(alloc: Global, table: &mut Table, change: &Change)
    requires { CanTake table.old change.now }
    ensures { table.new ≡ record table.old {
      devices = table.old.devices ++ imported_devices (change.now ∷ []);
    } }
{
    match change {
        Change::Import(importing) => import(alloc, table, importing),
        Change::Amend(_) => {}
        Change::Retire(_) => {}
    }
}

// Puts an imported device at the next slot. Takes no memory.
fn import(alloc: Global, table: &mut Table, importing: &Importing)
    requires free { length table.old.devices < table.old.slots }
    requires is_new { slot_of importing.now.provisioning.dev_eui.0 table.old.devices ≡ None }
    ensures { table.new ≡ record table.old {
      devices = table.old.devices ++ imported_device importing.now ∷ [];
    } }
{
    let _most = table.slots().get();
    let slot = table.devices().len() as u16;
    table.set_device(slot, imported_device(alloc, importing));
}
