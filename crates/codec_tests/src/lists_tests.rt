// Lists of devices. The texts and what they ask for were written by hand, by docs/DEVICES.md.
use crate::fixtures::{DEVICE, current, new_device};
use LineFault::{ColumnTwice, Count, Missing, Text, UnknownColumn, Value};
use device_changes::{Amendment, Change, FaultyRow, Importing, RowFault};
use device_lists::{
    AppKeys, Column, LineFault, ListFault, ListUse, list_of, read_list, text_of_faults,
};
use devices::{Activation, Device, UplinkCount};
use lw_types::{JoinNonce, Refusal};
use std::alloc::Global;

const IMPORTS: &str = concat!(
    "DevEUI,JoinEUI,AppKey,Application,Offset,Delay,LastDevNonce,LastJoinNonce,Heard,Session\n",
    "70B3D57ED0000001,0102030405060708,2B7E151628AED2A6ABF7158809CF4F3C,3,2,5,41,12,5321,yes\n",
    "# a comment\n",
    "\n",
    "70B3D57ED0000002,0102030405060708,603DEB1015CA71BE2B73AEF0857D7781,15,,,,,,\n",
);

// What a line asks for: the DevEUI, the first byte of the AppKey, the application, the offset, the
// delay and the last nonces.
type Imported = (u64, u8, u64, u64, u64, Option<u16>, u64);

fn imported_in(importing: &Importing) -> Imported {
    let provisioning = &importing.provisioning;
    (
        provisioning.dev_eui.0,
        provisioning.app_key.0[0],
        provisioning.application.get(),
        provisioning.rx1_offset.get(),
        provisioning.rx_delay.get(),
        importing.last_dev_nonce,
        importing.last_join_nonce.get(),
    )
}

fn imports_in(alloc: Global, text: &str) -> Result<Vec<Imported>, Refusal> {
    let Ok(list) = read_list(alloc, text.as_bytes(), ListUse::Import) else {
        return Err(Refusal::Malformed);
    };
    let mut found = Vec::new(alloc);
    for change in &list.changes {
        if let Change::Import(importing) = change {
            found.push(imported_in(importing))?;
        }
    }
    Ok(found)
}

const IMPORTED: &[Imported] = &[
    (0x70B3_D57E_D000_0001, 0x2B, 3, 2, 5, Some(41), 12),
    (0x70B3_D57E_D000_0002, 0x60, 15, 0, 1, None, 0),
];

#[test]
fn a_list_of_imports_asks_for_these(rt: HostRuntime) {
    match imports_in(rt.alloc(), IMPORTS) {
        Ok(found) => assert!(rt; found.as_slice() == IMPORTED),
        Err(_) => assert!(rt; false, "faulty"),
    }
}

// Another order of the columns, quotation marks, a byte order mark and lines that end with CR LF.
const OTHER_FORM: &str = concat!(
    "\u{FEFF}AppKey,\"Application\",DevEUI,Name,JoinEUI\r\n",
    "2B7E151628AED2A6ABF7158809CF4F3C,\"3\",70B3D57ED0000001,\"Roof, north\",0102030405060708\r\n",
);

#[test]
fn a_list_has_columns_in_any_order(rt: HostRuntime) {
    match imports_in(rt.alloc(), OTHER_FORM) {
        Ok(found) => {
            let due = [(0x70B3_D57E_D000_0001, 0x2B, 3, 0, 1, None, 0)];
            assert!(rt; found.as_slice() == due.as_slice());
        }
        Err(_) => assert!(rt; false, "faulty"),
    }
}

// What a line asks for beside the DevEUI: whether there is an AppKey, the application, the offset,
// the delay and the last nonces.
type Amended = (
    bool,
    Option<u64>,
    Option<u64>,
    Option<u64>,
    Option<Option<u16>>,
    Option<u64>,
);

fn amended_in(amendment: &Amendment) -> Amended {
    (
        amendment.app_key.is_some(),
        amendment.application.map(|number| number.get()),
        amendment.rx1_offset.map(|offset| offset.get()),
        amendment.rx_delay.map(|delay| delay.get()),
        amendment.last_dev_nonce,
        amendment.last_join_nonce.map(|nonce| nonce.get()),
    )
}

// The only amendment of a list.
fn amendment_in(alloc: Global, text: &str) -> Option<Amended> {
    let Ok(list) = read_list(alloc, text.as_bytes(), ListUse::Amend) else {
        return None;
    };
    match list.changes.as_slice() {
        [Change::Amend(amendment)] => Some(amended_in(amendment)),
        _ => None,
    }
}

const AMENDMENTS: &[(&str, Amended)] = &[
    (
        "DevEUI\n70B3D57ED0000001\n",
        (false, None, None, None, None, None),
    ),
    (
        "DevEUI,LastDevNonce\n70B3D57ED0000001,\n",
        (false, None, None, None, Some(None), None),
    ),
    (
        "DevEUI,LastDevNonce,Delay\n70B3D57ED0000001,65535,15\n",
        (false, None, None, Some(15), Some(Some(65_535)), None),
    ),
    (
        concat!(
            "DevEUI,AppKey,Application,Offset,LastJoinNonce\n",
            "70B3D57ED0000001,2B7E151628AED2A6ABF7158809CF4F3C,0,5,16777215\n",
        ),
        (true, Some(0), Some(5), None, None, Some(16_777_215)),
    ),
];

#[test]
fn an_amendment_leaves_what_is_missing(rt: HostRuntime) {
    for (text, due) in AMENDMENTS {
        assert!(rt; amendment_in(rt.alloc(), text) == Some(*due), "{text}");
    }
}

// The faulty lines of a list.
fn faults_in(alloc: Global, text: &[u8], usage: ListUse) -> Result<Vec<(u64, LineFault)>, Refusal> {
    let mut found = Vec::new(alloc);
    match read_list(alloc, text, usage) {
        Ok(_) => Ok(found),
        Err(ListFault::Lines(lines)) => {
            for faulty in &lines {
                found.push((faulty.line, faulty.fault))?;
            }
            Ok(found)
        }
        Err(ListFault::OutOfMemory) => Err(Refusal::OutOfMemory),
    }
}

const FAULTS: &[(&[u8], &[(u64, LineFault)])] = &[
    (b"", &[(1, Missing(Column::DevEui))]),
    (b"DevEUI\n", &[]),
    (b"JoinEUI\n", &[(1, Missing(Column::DevEui))]),
    (b"DevEUI,LastJoinNonse\n", &[(1, UnknownColumn(2))]),
    (
        b"DevEUI,Delay,DevEUI\n",
        &[(1, ColumnTwice(Column::DevEui))],
    ),
    (b"DevEUI,\xFF\n", &[(1, Text)]),
    (
        b"DevEUI,Delay\n70B3D57ED0000001\n\n# more\n70B3D57ED0000002,16\n,5\n70B3D57ED0000003,5,\n",
        &[
            (2, Count),
            (5, Value(Column::Delay)),
            (6, Missing(Column::DevEui)),
            (7, Count),
        ],
    ),
    (
        b"DevEUI,Heard,Session\n70B3D57ED000000,1,no\n70B3D57ED0000001,x,no\n\
          70B3D57ED0000001,1,n\n",
        &[
            (2, Value(Column::DevEui)),
            (3, Value(Column::Heard)),
            (4, Value(Column::Session)),
        ],
    ),
];

#[test]
fn each_faulty_line_is_reported(rt: HostRuntime) {
    for (text, due) in FAULTS {
        match faults_in(rt.alloc(), text, ListUse::Amend) {
            Ok(found) => assert!(rt; found.as_slice() == *due),
            Err(_) => assert!(rt; false, "no memory"),
        }
    }
}

const NEEDED: &[(&[u8], LineFault)] = &[
    (b"DevEUI\n70B3D57ED0000001\n", Missing(Column::JoinEui)),
    (
        b"DevEUI,JoinEUI\n70B3D57ED0000001,0102030405060708\n",
        Missing(Column::AppKey),
    ),
    (
        b"DevEUI,JoinEUI,AppKey\n\
          70B3D57ED0000001,0102030405060708,2b7e151628aed2a6abf7158809cf4f3c\n",
        Value(Column::AppKey),
    ),
    (
        b"DevEUI,JoinEUI,AppKey\n\
          70B3D57ED0000001,0102030405060708,2B7E151628AED2A6ABF7158809CF4F3C\n",
        Missing(Column::Application),
    ),
];

#[test]
fn an_import_needs_four_columns(rt: HostRuntime) {
    for (text, due) in NEEDED {
        match faults_in(rt.alloc(), text, ListUse::Import) {
            Ok(found) => {
                let due = [(2, *due)];
                assert!(rt; found.as_slice() == due.as_slice());
            }
            Err(_) => assert!(rt; false, "no memory"),
        }
    }
}

// What is printed about the rows of a list that a table refuses.
fn refused_text(alloc: Global) -> Result<String, Refusal> {
    let Ok(list) = read_list(alloc, IMPORTS.as_bytes(), ListUse::Import) else {
        return Err(Refusal::Malformed);
    };
    let rows = [
        FaultyRow {
            row: 0,
            fault: RowFault::DevEuiTaken,
        },
        FaultyRow {
            row: 1,
            fault: RowFault::TableFull,
        },
    ];
    let lines = list.faulty_lines(alloc, &rows)?;
    Ok(text_of_faults(alloc, "devices.csv", lines.as_slice(), "; ")?)
}

const REFUSED_TEXT: &str = concat!(
    "devices.csv line 2: the store has this DevEUI already; ",
    "devices.csv line 5: the store has no free slot for it",
);

#[test]
fn a_refused_row_is_named_by_its_line(rt: HostRuntime) {
    match refused_text(rt.alloc()) {
        Ok(text) => assert!(rt; text.as_str() == REFUSED_TEXT),
        Err(_) => assert!(rt; false, "refused"),
    }
}

// A device in its twelfth session.
fn joined_device(alloc: Global) -> Option<Device> {
    let mut device = new_device(alloc, DEVICE)?;
    device.last_dev_nonce = Some(41);
    device.activation = Activation::new(JoinNonce::new(12), Some(current(12, 0)?), None)?;
    device.heard = UplinkCount::new(5321)?;
    Some(device)
}

// The list of a device that has just been provisioned, and of one that has joined.
fn exported(alloc: Global, keys: AppKeys) -> Result<String, Refusal> {
    let (Some(new), Some(joined)) = (new_device(alloc, DEVICE), joined_device(alloc)) else {
        return Err(Refusal::Malformed);
    };
    let mut devices = Vec::new(alloc);
    devices.push(new)?;
    devices.push(joined)?;
    Ok(list_of(alloc, devices.as_slice(), keys)?)
}

const HIDDEN: &str = concat!(
    "DevEUI,JoinEUI,AppKey,Application,Offset,Delay,LastDevNonce,LastJoinNonce,Heard,Session\n",
    "1112131415161718,0102030405060708,,3,0,1,,0,0,no\n",
    "1112131415161718,0102030405060708,,3,0,1,41,12,5321,yes\n",
);

const SHOWN: &str = concat!(
    "DevEUI,JoinEUI,AppKey,Application,Offset,Delay,LastDevNonce,LastJoinNonce,Heard,Session\n",
    "1112131415161718,0102030405060708,2B7E151628AED2A6ABF7158809CF4F3C,3,0,1,,0,0,no\n",
    "1112131415161718,0102030405060708,2B7E151628AED2A6ABF7158809CF4F3C,3,0,1,41,12,5321,yes\n",
);

#[test]
fn a_list_of_devices_is_printed(rt: HostRuntime) {
    for (keys, due) in [(AppKeys::Hidden, HIDDEN), (AppKeys::Shown, SHOWN)] {
        match exported(rt.alloc(), keys) {
            Ok(text) => assert!(rt; text.as_str() == due),
            Err(_) => assert!(rt; false, "no memory"),
        }
    }
}
