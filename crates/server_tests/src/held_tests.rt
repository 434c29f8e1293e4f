// Workers go on while a sync is held, and while another worker is.
use crate::disks::HeldDisk;
use crate::gates::{HoldBoth, HoldFirst, Marks, StandingClock};
use crate::lives::{clients, hears, new_disk, new_store, refusal_of, serve, wires};
use devices::Device;
use lnsd_life::LifeReport;
use lw_types::Refusal;
use std::alloc::Global;
use std::net::{Net, TcpListener, TcpStream};
use std::sync::Wait;
use std::thread::Threads;
use store::open;

// Two applications ask for three things each; the third names a device that already exists.
const HELD: &str = "0002 0201 \
     0051 03 |provision 0000000000000001 0102030405060708 2B7E151628AED2A6ABF7158809CF4F3C 0 1|\
     0051 03 |provision 0000000000000002 0102030405060708 2B7E151628AED2A6ABF7158809CF4F3C 0 1|\
     0051 03 |provision 0000000000000002 0102030405060708 2B7E151628AED2A6ABF7158809CF4F3C 0 1|;\
     0002 0202 \
     0051 03 |provision 0000000000000003 0102030405060708 2B7E151628AED2A6ABF7158809CF4F3C 0 1|\
     0051 03 |provision 0000000000000004 0102030405060708 2B7E151628AED2A6ABF7158809CF4F3C 0 1|\
     0051 03 |provision 0000000000000004 0102030405060708 2B7E151628AED2A6ABF7158809CF4F3C 0 1|";

// The first sync is held until each of two workers has made a second decision and come to its third
// call. Returns how many decisions and how many syncs are made. All that was decided meanwhile is
// one batch after the first, which shares a sync with it: they need three syncs, and the opening
// one more.
fn hold_sync<R: Net<Listener = TcpListener, Stream = TcpStream> + Threads + Wait + Sync>(
    rt: &R,
    alloc: Global,
) -> Result<(u64, u64), Refusal> {
    let marks = Marks::new();
    let store = open(alloc, HeldDisk::new(new_disk(alloc)?, &marks))?;
    let hall = clients(rt, alloc, &wires(alloc, HELD)?, true)?;
    let gate = HoldBoth { marks: &marks };
    let (served, _) = serve(rt, alloc, store, hall, &gate, &StandingClock);
    let report = served.result.map_err(|fault| refusal_of(fault))?;
    Ok((report.made, served.store.close().syncs()))
}

#[test]
fn workers_decide_while_a_sync_is_held(rt: HostRuntime) {
    assert!(rt; hold_sync(&rt, rt.alloc()) == Ok((4, 4)));
}

// Two applications have a device each, and queue an item for it. The second application makes one
// more request.
const QUEUED: &str = "0002 0201 \
     0051 03 |provision 0000000000000001 0102030405060708 2B7E151628AED2A6ABF7158809CF4F3C 0 1|\
     0021 03 |queue 0000000000000001 11 7 u 0A|;\
     0002 0202 \
     0051 03 |provision 0000000000000002 0102030405060708 2B7E151628AED2A6ABF7158809CF4F3C 0 1|\
     0023 03 |queue 0000000000000002 22 8 c 0B0C|\
     0018 03 |mac 0000000000000002 06|";

// Whether a device has this item, and no other.
fn has_item(device: &Device, tag: u32, port: u64, confirmed: bool, bytes: &[u8]) -> bool {
    match device.items.as_slice() {
        [item] => {
            (item.tag.0, item.port.get(), item.confirmed) == (tag, port, confirmed)
                && item.payload.as_slice() == bytes
        }
        _ => false,
    }
}

const ANSWERED: &str =
    "001F 13 |provisioned 0000000000000001 0| 001B 13 |queued 0000000000000001 11|;\
     001F 13 |provisioned 0000000000000002 1| 001B 13 |queued 0000000000000002 22|\
     001E 13 |macqueued 0000000000000002 06|";

// The items for each device.
const ITEMS: &[(u64, u32, u64, bool, &[u8])] = &[
    (1, 11, 7, false, &[0x0A]),
    (2, 22, 8, true, &[0x0B, 0x0C]),
];

// Whether each device of a store has its own item, alone and unchanged.
fn has_items(devices: &[Device]) -> bool {
    let mut same = devices.len() == ITEMS.len();
    for (dev_eui, tag, port, confirmed, bytes) in ITEMS {
        same = same
            && devices.iter().any(|device| {
                device.dev_eui.0 == *dev_eui && has_item(device, *tag, *port, *confirmed, bytes)
            });
    }
    same
}

// The first worker is held before its second call until the second one has come to its third.
// Returns whether that was in time, whether each application receives the answers to its requests,
// and whether each device has its item; and how many decisions each worker and the closer made.
fn hold_first<R: Net<Listener = TcpListener, Stream = TcpStream> + Threads + Wait + Sync>(
    rt: &R,
    alloc: Global,
) -> Result<(bool, bool, bool, LifeReport), Refusal> {
    let marks = Marks::new();
    let hall = clients(rt, alloc, &wires(alloc, QUEUED)?, true)?;
    let gate = HoldFirst { marks: &marks };
    let (served, links) = serve(rt, alloc, new_store(alloc)?, hall, &gate, &StandingClock);
    let report = served.result.map_err(|fault| refusal_of(fault))?;
    let store = open(alloc, served.store.close())?;
    let is_heard = hears(alloc, links, &wires(alloc, ANSWERED)?)?;
    Ok((
        !marks.is_late(),
        is_heard,
        has_items(store.table().devices()),
        report,
    ))
}

#[test]
fn a_held_worker_holds_nobody(rt: HostRuntime) {
    let held = hold_first(&rt, rt.alloc());
    assert!(rt;
        held.is_ok_and(|(held, heard, stored, report)| {
            held && heard && stored && report.shares() == [2, 3, 0].as_slice()
        })
    );
}
