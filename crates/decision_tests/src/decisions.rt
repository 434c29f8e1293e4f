// Tests of what tables decide: uplinks and downlinks, joins, and queues. Effects are compared in
// the form in which they leave, as lines for the application and frames for the gateway, and the
// record is compared whole.
mod channels;
mod counts;
mod fcnt;
mod joins;
mod loads;
mod payloads;
mod queueing;
mod records;
mod refusals;
mod session_choice;
mod stories;
mod windows;

use crate::decisions::channels::{FIRST, LATER, ON_THREE};
use crate::decisions::queueing::{FIFTY, ITEM};
use crate::decisions::records::{ANSWERED, IN_USE};
use crate::fixture::REQUEST_1;
use crate::network::{Asked, Comes, FRESH, Items, Refused, Row, State, told};
use lw_types::Refusal;
use std::alloc::Global;

// The tables of rows, each with its file and name. (If a test named them all, its proof would have
// every row in it; a test that calls this function has none.)
fn rows_of(table: u8) -> (&'static str, &'static [Row]) {
    match table {
        0 => ("payloads.rt MAC_COMMANDS", payloads::MAC_COMMANDS),
        1 => ("payloads.rt PORTS", payloads::PORTS),
        2 => ("session_choice.rt SESSIONS", session_choice::SESSIONS),
        3 => ("session_choice.rt AWAITED", session_choice::AWAITED),
        4 => ("fcnt.rt COUNTERS", fcnt::COUNTERS),
        5 => ("fcnt.rt REPEATS", fcnt::REPEATS),
        6 => ("loads.rt LOADS", loads::LOADS),
        7 => ("loads.rt ITEMS", loads::ITEMS),
        8 => ("windows.rt LINK_CHECKS", windows::LINK_CHECKS),
        9 => ("stories.rt STORIES", stories::STORIES),
        10 => ("joins.rt JOINS", joins::JOINS),
        11 => ("channels.rt CHANNELS", channels::CHANNELS),
        12 => ("counts.rt COUNTS", counts::COUNTS),
        _ => ("queueing.rt QUEUED", queueing::QUEUED),
    }
}

// What is wrong in the tables, one line each: the table, the number of the row, what was wanted,
// and what came.
fn wrong_rows(alloc: Global) -> Result<String, Refusal> {
    let mut wrong = String::new(alloc);
    for table in 0..14 {
        let (name, rows) = rows_of(table);
        for (number, row) in rows.iter().enumerate() {
            if let Some(got) = row.fault(alloc)? {
                let wanted = row.wanted;
                let line = format!(in alloc; "\n{name} {number}: wanted {wanted}, got {got}")?;
                wrong.push_str(&line)?;
            }
        }
    }
    Ok(wrong)
}

#[test]
fn a_command_leaves_a_record_and_effects(rt: HostRuntime) {
    let wrong = wrong_rows(rt.alloc()).expect(&rt, "tables");
    assert!(rt; wrong.is_empty(), "{wrong}");
}

// The tables of refusals: of uplinks, of joins, by channels, and of items and MAC commands.
fn refusals_of(table: u8) -> (&'static str, &'static [Refused]) {
    match table {
        0 => ("refusals.rt REFUSALS", refusals::REFUSALS),
        1 => ("joins.rt REFUSALS", joins::REFUSALS),
        2 => ("channels.rt REFUSALS", channels::REFUSALS),
        _ => ("queueing.rt REFUSALS", queueing::REFUSALS),
    }
}

fn wrong_refusals(alloc: Global) -> Result<String, Refusal> {
    let mut wrong = String::new(alloc);
    for table in 0..4 {
        let (name, rows) = refusals_of(table);
        for (number, (before, comes, refusal)) in rows.iter().enumerate() {
            if !before.refuses(alloc, comes, *refusal)? {
                let got = before.outcome(alloc, comes)?;
                let line = format!(in alloc; "\n{name} {number}: wanted {refusal}, got {got}")?;
                wrong.push_str(&line)?;
            }
        }
    }
    Ok(wrong)
}

#[test]
fn a_command_is_refused_for_its_first_cause(rt: HostRuntime) {
    let wrong = wrong_refusals(rt.alloc()).expect(&rt, "tables");
    assert!(rt; wrong.is_empty(), "{wrong}");
}

// Whether the acknowledgement of an uplink at this data rate is sent for RX1 at the other, if the
// device has this offset.
fn lowers(alloc: Global, rx1_offset: u64, data_rate: u8, rx1: usize) -> Result<bool, Refusal> {
    let row = Row {
        before: State {
            rx1_offset,
            ..IN_USE
        },
        comes: Comes::At(data_rate, windows::CONFIRMED),
        wanted: windows::ACKS.get(rx1).copied().unwrap_or(""),
        after: State {
            rx1_offset,
            ..ANSWERED
        },
    };
    Ok(row.fault(alloc)?.is_none())
}

#[test]
fn an_offset_lowers_rx1(rt: HostRuntime) {
    for (rx1_offset, rates) in (0..6).zip(&windows::RX1_RATES) {
        for (data_rate, rx1) in (0..6).zip(rates) {
            let lowers = lowers(rt.alloc(), rx1_offset, data_rate, *rx1);
            assert!(rt; lowers == Ok(true), "{rx1_offset} {data_rate}");
        }
    }
}

// Whether an item on the next port waits after those on the ports from 1 on, which are this number.
fn waits_behind(alloc: Global, waiting: u8) -> Result<bool, Refusal> {
    let port = waiting.saturating_add(1);
    let row = Row {
        before: State {
            items: Items::Ports(u64::from(waiting)),
            ..FIFTY
        },
        comes: Comes::Item(Asked { port, ..ITEM }),
        wanted: "queued 0000000000000032 9",
        after: State {
            items: Items::Ports(u64::from(port)),
            ..FIFTY
        },
    };
    Ok(row.fault(alloc)?.is_none())
}

#[test]
fn sixteen_items_wait_in_order(rt: HostRuntime) {
    for waiting in 0..16 {
        assert!(rt; waits_behind(rt.alloc(), waiting) == Ok(true), "{waiting}");
    }
}

// What is sent when a frame on a channel at a data rate is answered in RX1: the frame for the
// gateway, with this text after its frequency and data rate.
fn is_answered(
    alloc: Global,
    before: &State,
    length: &str,
    digits: &'static str,
    channel: (u32, &str),
    answer: &str,
) -> Result<bool, Refusal> {
    let (frequency, written) = channel;
    for data_rate in 0..6 {
        let mut table = before.table(alloc)?;
        let told = told(alloc, &mut table, &Comes::On(frequency, data_rate, digits))?;
        let wanted = format!(in alloc;
            "{length}1100000000000000B10000C350{written}0{data_rate}{answer}"
        )?;
        if told != wanted {
            return Ok(false);
        }
    }
    Ok(true)
}

// Whether a confirmed uplink on a channel is answered there at each data rate.
fn uplinks_are_answered(
    alloc: Global,
    before: &State,
    channel: (u32, &str),
) -> Result<bool, Refusal> {
    let ack = "01026001000054200000C46172EF";
    is_answered(alloc, before, "0020", channels::CONFIRMED, channel, ack)
}

// Whether a Join-Request on a channel is granted there at each data rate.
fn joins_are_granted(alloc: Global, channel: (u32, &str)) -> Result<bool, Refusal> {
    let accept = "050620964FABE971240AB8E37F72AEFDC360B6FD3C4BE3FB883149AF03F6CC89235E53";
    is_answered(alloc, &FRESH, "0035", REQUEST_1, channel, accept)
}

#[test]
fn the_first_channels_serve_joins_and_uplinks(rt: HostRuntime) {
    for channel in FIRST {
        assert!(rt; joins_are_granted(rt.alloc(), channel) == Ok(true));
        assert!(rt; uplinks_are_answered(rt.alloc(), &IN_USE, channel) == Ok(true));
        assert!(rt; uplinks_are_answered(rt.alloc(), &ON_THREE, channel) == Ok(true));
    }
}

// Whether what comes on a channel is refused for the channel at each data rate.
fn is_off_channel(
    alloc: Global,
    before: &State,
    frequency: u32,
    digits: &'static str,
) -> Result<bool, Refusal> {
    for data_rate in 0..6 {
        let comes = Comes::On(frequency, data_rate, digits);
        if !before.refuses(alloc, &comes, Refusal::UnknownChannel)? {
            return Ok(false);
        }
    }
    Ok(true)
}

#[test]
fn the_later_channels_serve_uplinks_of_eight(rt: HostRuntime) {
    for channel in LATER {
        let alloc = rt.alloc();
        assert!(rt; uplinks_are_answered(alloc, &IN_USE, channel) == Ok(true));
        assert!(rt; is_off_channel(alloc, &FRESH, channel.0, REQUEST_1) == Ok(true));
        assert!(rt; is_off_channel(alloc, &ON_THREE, channel.0, channels::CONFIRMED) == Ok(true));
    }
}
