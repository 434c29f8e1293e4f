use lw_types::Refusal;
use region_eu868::{
    CF_LIST, ReceiveWindow, is_channel, is_first_channel, margin, max_mac, rx1, rx2,
};
use std::alloc::Global;

// SNRs in quarter dB, data rates, and margins.
const MARGINS: &[(i16, u8, u8)] = &[
    (-20, 5, 2),
    (-100, 0, 0),
    (32767, 0, 254),
    (-32768, 5, 0),
    (-80, 0, 0),
    (-77, 0, 0),
    (-76, 0, 1),
    (939, 0, 254),
    (935, 0, 253),
];

// The margin at a data rate, of which there are six. None is 255.
fn margin_at(snr: i16, data_rate: u8) -> u8 {
    if data_rate > 5 {
        return u8::MAX;
    }
    margin(snr, data_rate)
}

// The rows of the table that are wrong, one line each.
fn wrong_margins(alloc: Global) -> Result<String, Refusal> {
    let mut wrong = String::new(alloc);
    for (number, (snr, data_rate, wanted)) in MARGINS.iter().enumerate() {
        let got = margin_at(*snr, *data_rate);
        if got != *wanted {
            let line = format!(in alloc;
                "\nregion_eu868_tests.rt MARGINS {number}: wanted {wanted}, got {got}"
            )?;
            wrong.push_str(&line)?;
        }
    }
    Ok(wrong)
}

#[test]
fn margins_are_whole_decibels(rt: HostRuntime) {
    let wrong = wrong_margins(rt.alloc()).expect(&rt, "memory");
    assert!(rt; wrong.is_empty(), "{wrong}");
}

const LONGEST: &[(u8, u8)] = &[(0, 59), (1, 59), (2, 59), (3, 123), (4, 250), (5, 250)];

fn longest_at(data_rate: u8) -> u8 {
    if data_rate > 5 {
        return u8::MAX;
    }
    max_mac(data_rate)
}

fn wrong_lengths(alloc: Global) -> Result<String, Refusal> {
    let mut wrong = String::new(alloc);
    for (data_rate, wanted) in LONGEST {
        let got = longest_at(*data_rate);
        if got != *wanted {
            let line = format!(in alloc;
                "\nregion_eu868_tests.rt LONGEST {data_rate}: wanted {wanted}, got {got}"
            )?;
            wrong.push_str(&line)?;
        }
    }
    Ok(wrong)
}

#[test]
fn each_data_rate_has_its_longest_payload(rt: HostRuntime) {
    let wrong = wrong_lengths(rt.alloc()).expect(&rt, "memory");
    assert!(rt; wrong.is_empty(), "{wrong}");
}

// Frequencies, whether each is a channel, and whether it is one of the first three.
const FREQUENCIES: &[(u32, bool, bool)] = &[
    (867_100_000, true, false),
    (867_300_000, true, false),
    (867_500_000, true, false),
    (867_700_000, true, false),
    (867_900_000, true, false),
    (868_100_000, true, true),
    (868_300_000, true, true),
    (868_500_000, true, true),
    (866_900_000, false, false),
    (867_100_001, false, false),
    (868_200_000, false, false),
    (868_700_000, false, false),
    (869_525_000, false, false),
];

fn wrong_channels(alloc: Global) -> Result<String, Refusal> {
    let mut wrong = String::new(alloc);
    for (frequency, is, is_first) in FREQUENCIES {
        let got = (is_channel(*frequency), is_first_channel(*frequency));
        if got != (*is, *is_first) {
            let line = format!(in alloc;
                "\nregion_eu868_tests.rt FREQUENCIES {frequency}: got {}, {}",
                got.0, got.1
            )?;
            wrong.push_str(&line)?;
        }
    }
    Ok(wrong)
}

#[test]
fn the_channels_are_eight(rt: HostRuntime) {
    let wrong = wrong_channels(rt.alloc()).expect(&rt, "memory");
    assert!(rt; wrong.is_empty(), "{wrong}");
}

// As in another implementation's Join-Accept (frame_crypt_tests.rt).
#[test]
fn the_list_of_channels_has_16_bytes(rt: HostRuntime) {
    let list = *b"\x18\x4F\x84\xE8\x56\x84\xB8\x5E\x84\x88\x66\x84\x58\x6E\x84\x00";
    assert!(rt; CF_LIST == list);
}

// RX1 of an uplink on a channel, at one of six data rates.
fn rx1_of(frequency: u32, data_rate: u8, offset: u8) -> Option<ReceiveWindow> {
    if !is_channel(frequency) || data_rate > 5 || offset > 5 {
        return None;
    }
    Some(rx1(frequency, data_rate, offset))
}

fn window(frequency: u32, data_rate: u8) -> ReceiveWindow {
    ReceiveWindow {
        frequency,
        data_rate,
    }
}

#[test]
fn the_windows_are_the_regions(rt: HostRuntime) {
    assert!(rt; rx1_of(868_100_000, 2, 3) == Some(window(868_100_000, 0)));
    assert!(rt; rx1_of(868_500_000, 5, 2) == Some(window(868_500_000, 3)));
    assert!(rt; rx1_of(867_900_000, 5, 0) == Some(window(867_900_000, 5)));
    assert!(rt; rx2() == window(869_525_000, 0));
}
