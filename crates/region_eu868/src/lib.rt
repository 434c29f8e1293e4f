//! The channels and data rates of EU868 (RP002-1.0.4, EU863-870), for class A devices. A device has
//! three channels from the start, and a Join-Accept adds five. No call takes memory.
#![tactic(auto)]

ghost use Rattle.std.specs.Prelude.{◌≡◌, ◌≤◌, ◌-◌, ◌↔◌, IsTrue, Contains, slice_index};
ghost use Rattle.region_eu868.specs.Region.{channels, first_channels, is_among};
ghost use Rattle.region_eu868.specs.Region.{later_channels};
ghost use Rattle.region_eu868.specs.Region.{max_payloads, snr_depths, margin_of, IsMargin};

pub mod laws;

/// The frequency of RX2, in Hz.
pub const RX2_FREQUENCY: u32 = 869_525_000;

/// The frequency and the data rate of a receive window.
#[derive(Clone, Copy, PartialEq, Eq)]
pub struct ReceiveWindow {
    /// In Hz.
    pub frequency: u32,
    pub data_rate: u8,
}

/// RX1: the uplink's frequency, and its data rate less the RX1DROffset, at least DR0.
pub fn rx1(frequency: u32, data_rate: u8, offset: u8) -> ReceiveWindow
    requires channel { Contains channels frequency }
    requires data_rate { data_rate ≤ 5 }
    requires offset { offset ≤ 5 }
    ensures frequency { result.frequency ≡ frequency }
    ensures data_rate { result.data_rate ≡ data_rate - offset }
{
    ReceiveWindow {
        frequency,
        data_rate: data_rate.saturating_sub(offset),
    }
}

/// RX2: 869.525 MHz at DR0.
pub fn rx2() -> ReceiveWindow
    ensures { result ≡ record { frequency = RX2_FREQUENCY; data_rate = 0 } }
{
    ReceiveWindow {
        frequency: RX2_FREQUENCY,
        data_rate: 0,
    }
}

/// The largest MACPayload at a data rate, in bytes.
pub fn max_mac(data_rate: u8) -> u8
    requires { data_rate ≤ 5 }
    ensures { result ≡ slice_index max_payloads data_rate }
{
    match data_rate {
        0..=2 => 59,
        3 => 123,
        _ => 250,
    }
}

/// The channels that a Join-Accept adds: five frequencies in units of 100 Hz, three bytes each, low
/// bytes first, and a last byte that gives the type of the list (TS001-1.0.4 §6.2.6; RP002-1.0.4,
/// EU863-870).
pub const CF_LIST: [u8; 16] = [
    0x18, 0x4F, 0x84, 0xE8, 0x56, 0x84, 0xB8, 0x5E, 0x84, 0x88, 0x66, 0x84, 0x58, 0x6E, 0x84, 0x00,
];

/// Whether a frequency in Hz is a channel: one of the first three, or one that a Join-Accept adds.
pub fn is_channel(frequency: u32) -> bool
    ensures contained { IsTrue result ↔ Contains channels frequency }
    ensures tested { result ≡ is_among channels frequency }
{
    is_first_channel(frequency) || is_later_channel(frequency)
}

/// Whether a frequency in Hz is one of the three channels that each device has from the start.
pub fn is_first_channel(frequency: u32) -> bool
    ensures contained { IsTrue result ↔ Contains first_channels frequency }
    ensures tested { result ≡ is_among first_channels frequency }
{
    matches!(frequency, 868_100_000 | 868_300_000 | 868_500_000)
}

// Whether a frequency is one of the channels that a Join-Accept adds.
fn is_later_channel(frequency: u32) -> bool
    ensures { result ≡ is_among later_channels frequency }
{
    matches!(
        frequency,
        867_100_000 | 867_300_000 | 867_500_000 | 867_700_000 | 867_900_000
    )
}

/// By how many whole dB an SNR, in quarter dB, is above the floor of its data rate, from 0 to 254.
pub fn margin(snr: i16, data_rate: u8) -> u8
    requires { data_rate ≤ 5 }
    ensures margin { IsMargin snr data_rate result }
    ensures value { result ≡ margin_of snr data_rate }
{
    let above = i32::from(snr) + i32::from(snr_depth(data_rate));
    if above < 0 {
        return 0;
    }
    (above.unsigned_abs() / 4).min(254) as u8
}

// How far below 0 dB the SNR may be at a data rate, in quarter dB.
fn snr_depth(data_rate: u8) -> u8
    requires { data_rate ≤ 5 }
    ensures depth { result ≡ slice_index snr_depths data_rate }
    ensures small { result ≤ 80 }
{
    match data_rate {
        0 => 80,
        1 => 70,
        2 => 60,
        3 => 50,
        4 => 40,
        _ => 30,
    }
}
