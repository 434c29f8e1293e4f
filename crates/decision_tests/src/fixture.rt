//! The first values of the tests. Frames and keys were made by Python's `cryptography`.
use devices::{
    Application, Channels, Command, Heard, Hearing, Hearings, Provisioning, Rx1Offset, RxDelay,
    Session,
};
use lw_types::{Eui, JoinNonce, Key, PhyPayload, Reception, Refusal, read_hex};
use std::alloc::Global;

/// The DevEUI of the device that joins.
pub const JOINER: u64 = 0x1112_1314_1516_1718;

/// Join-Requests of that device with the DevNonces from 0 on.
pub const REQUEST_0: &str = "0008070605040302011817161514131211000073A08275";

pub const REQUEST_1: &str = "000807060504030201181716151413121101009E7419CE";

pub const REQUEST_2: &str = "00080706050403020118171615141312110200C13BE455";

pub const REQUEST_3: &str = "00080706050403020118171615141312110300E85E42DA";

/// Its first uplink after it joined at slot 0 with DevNonce 0: one byte on port 1, unconfirmed.
pub const FIRST_UPLINK: &str = "400100005400000001D030E934B6";

/// The provisioning of a device with this DevEUI.
pub fn provisioning(dev_eui: u64) -> Option<Provisioning> {
    Some(Provisioning {
        application: Application::new(3)?,
        dev_eui: Eui(dev_eui),
        join_eui: Eui(1),
        app_key: Key([7; 16]),
        rx1_offset: Rx1Offset::new(0)?,
        rx_delay: RxDelay::new(1)?,
    })
}

/// The command that provisions a device with this DevEUI.
pub fn provision(dev_eui: u64) -> Option<Command> {
    Some(Command::Provision(provisioning(dev_eui)?))
}

/// The provisioning of the device that joins. Its key is the example key of FIPS 197.
pub fn joining() -> Option<Provisioning> {
    let mut joining = provisioning(JOINER)?;
    joining.join_eui = Eui(0x0102_0304_0506_0708);
    joining.app_key = key(0x2B7E1516_28AED2A6_ABF71588_09CF4F3C);
    Some(joining)
}

/// The key of these digits.
pub fn key(digits: u128) -> Key {
    Key(digits.to_be_bytes())
}

/// The session of a JoinNonce with these keys, NwkSKey first, on these channels.
pub fn session(join_nonce: u32, keys: (u128, u128), channels: Channels) -> Option<Session> {
    Some(Session {
        join_nonce: JoinNonce::new(join_nonce)?,
        nwk_skey: key(keys.0),
        app_skey: key(keys.1),
        channels,
    })
}

/// How a gateway heard a frame, at 868.1 MHz.
pub fn hearing(gateway: u64) -> Hearing {
    Hearing {
        reception: Reception {
            gateway: Eui(gateway),
            frequency: 868_100_000,
            data_rate: 5,
            snr: -20,
            rssi: -95,
        },
        stamp: 50_000,
    }
}

/// The frame of these hexadecimal digits.
pub fn frame(alloc: Global, digits: &str) -> Result<PhyPayload, Refusal> {
    match PhyPayload::new(read_hex(alloc, digits)?) {
        Ok(frame) => Ok(frame),
        Err(_) => Err(Refusal::FrameTooLong),
    }
}

/// The command of the frame with these hexadecimal digits, of which gateways have these copies.
pub fn heard_by(alloc: Global, digits: &str, copies: &[Hearing]) -> Result<Command, Refusal> {
    let phy_payload = frame(alloc, digits)?;
    match Hearings::new(Vec::from_slice(alloc, copies)?) {
        Some(hearings) => Ok(Command::Heard(Heard {
            phy_payload,
            hearings,
        })),
        None => Err(Refusal::Malformed),
    }
}

/// The same of a frame that one gateway heard.
pub fn heard(alloc: Global, digits: &str) -> Result<Command, Refusal> {
    heard_by(alloc, digits, &[hearing(0xB1)])
}
