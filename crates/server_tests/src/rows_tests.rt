// Lives of which every byte is known.
use crate::gates::StandingClock;
use crate::lives::{clients, hears, new_store, refusal_of, serve, wires};
use disk::MemDisk;
use gateway_wire::list_text;
use lnsd_life::OpenGate;
use lw_types::Refusal;
use std::alloc::Global;
use std::net::{Net, TcpListener, TcpStream};
use std::sync::Wait;
use std::thread::Threads;
use store::Store;

// What clients send, and what they receive, one text each; how many effects are dropped, how many
// links are faulted, and how many decisions are made; and the list of the store afterwards. The
// lives follow one another over one store.
type Row = (&'static str, &'static str, (u64, u64, u64), &'static str);

// A device is provisioned and joins. Its uplink comes in a life in which its application has no
// link. Lines that are no request, or are for another application's device, are refused. The frames
// were made by a device and a network of another implementation (python/bozintar).
const ROWS: &[Row] = &[
    (
        "0002 0203 0051 03 |provision 1112131415161718 0102030405060708 \
         2B7E151628AED2A6ABF7158809CF4F3C 0 1|;\
         0009 00 00000000000000B1 002D 01 00000000000000B1 33BE27A0 05 FFEC FFA1 0000C350 \
         000807060504030201181716151413121101009E7419CE",
        "001F 13 |provisioned 1112131415161718 0|;\
         0035 11 00000000000000B1 0000C350 33BE27A0 05 05 06 \
         20 964FABE971240AB8E37F72AEFDC360B6FD3C4BE3FB883149AF03F6CC89235E53",
        (0, 0, 2),
        "0 1112131415161718 1 - - - 0 0\ndevices 1 seq 2\n",
    ),
    (
        "0009 00 00000000000000B1 0025 01 00000000000000B1 33BE27A0 05 FFEC FFA1 0000C350 \
         4001000054000000073AE48AC412E3",
        "",
        (1, 0, 1),
        "0 1112131415161718 1 1 0 0 0 1\ndevices 1 seq 3\n",
    ),
    (
        "0002 0203 0006 03 |hello| 0028 03 |queue 1112131415161718 9 7 u 04D2 extra|;\
         0002 0204 0029 03 |queue 1112131415161718 4294967295 7 u 0A|",
        "000B 13 |refused 51| 000B 13 |refused 51|;000A 13 |refused 7|",
        (0, 0, 0),
        "0 1112131415161718 1 1 0 0 0 1\ndevices 1 seq 3\n",
    ),
];

fn live<R: Net<Listener = TcpListener, Stream = TcpStream> + Threads + Wait + Sync>(
    rt: &R,
    alloc: Global,
    store: Store<MemDisk>,
    row: &Row,
) -> Result<(bool, Store<MemDisk>), Refusal> {
    let (said, wanted, counts, list) = *row;
    let hall = clients(rt, alloc, &wires(alloc, said)?, true)?;
    let (served, links) = serve(rt, alloc, store, hall, &OpenGate, &StandingClock);
    let report = served.result.map_err(|fault| refusal_of(fault))?;
    let store = served.store;
    let told = list_text(alloc, store.table().devices(), store.seq())?;
    let same = counts == (report.dropped, report.faulted, report.made);
    let all = hears(alloc, links, &wires(alloc, wanted)?)?;
    Ok((same && all && told.as_str() == list, store))
}

// The number of the first row that is wrong.
fn live_all<R: Net<Listener = TcpListener, Stream = TcpStream> + Threads + Wait + Sync>(
    rt: &R,
    alloc: Global,
) -> Result<Option<usize>, Refusal> {
    let mut store = new_store(alloc)?;
    for (number, row) in ROWS.iter().enumerate() {
        let (is_so, next) = live(rt, alloc, store, row)?;
        if !is_so {
            return Ok(Some(number));
        }
        store = next;
    }
    Ok(None)
}

#[test]
fn lives_are_as_known(rt: HostRuntime) {
    assert!(rt; live_all(&rt, rt.alloc()) == Ok(None));
}
