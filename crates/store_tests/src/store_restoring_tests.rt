// Tables of older copies, and stores that have a table from the beginning.
use devices::{Activation, GrantsSince};
use disk::{Image, Sim};
use lw_types::{Eui, JoinNonce, Refusal};
use sessions::Table;
use std::alloc::Global;
use store::establish_back;
use test_stores::devices_under_test::{idle_device, new_table};
use test_stores::stores_under_test::{LEN, blank, crashed};

const DEV_EUI: u64 = 1;

// A table of one device, whose last granted JoinNonce was this one; none for 0.
fn older(alloc: Global, granted: u32) -> Result<Table, Refusal> {
    let mut table = new_table(alloc, 8)?;
    let mut device = idle_device(alloc, DEV_EUI)?;
    let granted = JoinNonce::new(granted);
    device.activation = Activation::new(granted, None, None).ok_or(Refusal::Damaged)?;
    table.put(0, device)?;
    Ok(table)
}

// The JoinNonce last granted once this number of joins after the copy count, or the device that has
// too few left.
fn restored(alloc: Global, granted: u32, since: u64) -> Result<Result<u32, Eui>, Refusal> {
    let mut table = older(alloc, granted)?;
    let since = GrantsSince::new(since).ok_or(Refusal::Damaged)?;
    Ok(match table.restore(since) {
        Ok(()) => Ok(last_granted(&table)),
        Err(dev_eui) => Err(dev_eui),
    })
}

fn last_granted(table: &Table) -> u32 {
    match table.devices().first() {
        Some(device) => device.activation.granted().map_or(0, JoinNonce::get),
        None => 0,
    }
}

const RESTORED: &[(u32, u64, Result<u32, Eui>)] = &[
    (0, 1, Ok(1)),
    (1, 1024, Ok(1025)),
    (16_711_679, 65_536, Ok(16_777_215)),
    (16_777_214, 1, Ok(16_777_215)),
    (16_777_214, 2, Err(Eui(DEV_EUI))),
    (16_777_215, 1, Err(Eui(DEV_EUI))),
];

#[test]
fn grants_go_on_above_those_that_count(rt: HostRuntime) {
    for (granted, since, wanted) in RESTORED {
        let came = restored(rt.alloc(), *granted, *since);
        assert!(rt; came == Ok(*wanted), "{granted} and {since}");
    }
}

// What is opened after a crash to this image, if a store of one device and the number 1 is made by
// this number of calls, and the next one fails.
fn cut(alloc: Global, calls: u64, image: &Image) -> Result<(usize, u64), Refusal> {
    let mut disk = blank(alloc, LEN)?;
    disk.arm(calls.saturating_add(1));
    let mut disk = match establish_back(alloc, disk, older(alloc, 1)?, 1) {
        Ok(store) => store.close(),
        Err((disk, Refusal::DeviceFailed)) => disk,
        Err((_, refusal)) => return Err(refusal),
    };
    disk.arm(u64::MAX);
    crashed(alloc, disk, image)
}

// The image that has the low 8 bits of each position.
fn positions(alloc: Global) -> Result<Image, Refusal> {
    let mut bytes = Vec::new(alloc);
    for position in 0..LEN {
        bytes.push((position % 256) as u8)?;
    }
    Ok(Image::Bytes(bytes))
}

// Whether the store is found whole after this number of calls, in the old bytes, in the new ones,
// in open gates and in the low 8 bits of the positions; otherwise there is none.
const CUTS: &[(u64, [bool; 4])] = &[
    (0, [false, false, false, false]),
    (1, [false, false, false, false]),
    (2, [false, false, false, false]),
    (3, [false, false, false, false]),
    (4, [false, false, false, false]),
    (5, [false, false, false, false]),
    (6, [false, false, false, false]),
    (7, [false, false, false, false]),
    (8, [false, false, false, false]),
    (9, [false, false, false, false]),
    // The gate of the superblock is written: the failed write leaves its old byte. Then it is
    // synced.
    (10, [false, false, true, false]),
    (11, [false, true, true, false]),
    (12, [true, true, true, true]),
];

fn wanted(is_whole: bool) -> Result<(usize, u64), Refusal> {
    if is_whole {
        Ok((1, 1))
    } else {
        Err(Refusal::NotFormatted)
    }
}

#[test]
fn a_store_of_a_table_that_is_cut_is_none_or_whole(rt: HostRuntime) {
    let alloc = rt.alloc();
    let positions = positions(alloc).unwrap_or(Image::Old);
    let images = [&Image::Old, &Image::New, &Image::Fill(0xA5), &positions];
    for (calls, are_whole) in CUTS {
        for (image, is_whole) in images.iter().zip(are_whole) {
            let found = cut(alloc, *calls, image);
            assert!(rt; found == wanted(*is_whole), "{calls} calls");
        }
    }
}

// The refusal for a disk of this length.
fn refused(alloc: Global, len: usize) -> Result<Option<Refusal>, Refusal> {
    match establish_back(alloc, blank(alloc, len)?, older(alloc, 1)?, 1) {
        Ok(_) => Ok(None),
        Err((_, refusal)) => Ok(Some(refusal)),
    }
}

#[test]
fn a_disk_of_another_length_gets_no_store(rt: HostRuntime) {
    assert!(rt; refused(rt.alloc(), LEN - 1) == Ok(Some(Refusal::WrongSize)));
    assert!(rt; refused(rt.alloc(), LEN) == Ok(None));
}
