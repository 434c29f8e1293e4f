// What comes to a core in these tests. The frames were made by a device that isn't ours
// (python/bozintar).
ghost use Rattle.std.specs.Prelude.{◌≡◌, IfOk};

use devices::{
    Application, AskedBytes, MacQueueing, Provisioning, Queueing, Rx1Offset, RxDelay, Tag,
};
use lw_types::{Eui, FrameCopy, Key, NetId, PhyPayload, Reception, Refusal, read_hex};
use session_core::{Core, Moment};
use sessions::{Slots, Table};
use std::alloc::Global;

/// The device that joins, the example key of FIPS 197, its first Join-Request, and its first uplink
/// in the session that it is granted.
pub const JOINER: u64 = 0x1112_1314_1516_1718;

const KEY: Key = Key([
    0x2B, 0x7E, 0x15, 0x16, 0x28, 0xAE, 0xD2, 0xA6, 0xAB, 0xF7, 0x15, 0x88, 0x09, 0xCF, 0x4F, 0x3C,
]);

pub const REQUEST: &str = "000807060504030201181716151413121101009E7419CE";

pub const UPLINK: &str = "4001000054000000073AE48AC412E3";

/// An uplink of a device that no table here has.
pub const STRANGE: &str = "40F17DBE4900020001954378762B11FF0D";

/// A core at the beginning of a life, over a table of network 00002A without devices.
pub fn new_core(alloc: Global, slots: u64) -> Result<Core, Refusal>
    ensures made { IfOk result (λ core. core.decisions.made ≡ 0) }
    ensures taken { IfOk result (λ core. core.decisions.taken ≡ 0) }
{
    let net_id = NetId::new(0x2A).ok_or(Refusal::Damaged)?;
    let slots = Slots::new(slots).ok_or(Refusal::Damaged)?;
    let table = Table::new(alloc, net_id, slots)?;
    Core::new(alloc, &table, 0)
}

pub fn moment(milliseconds: u64) -> Result<Moment, Refusal> {
    Moment::new(milliseconds).ok_or(Refusal::Damaged)
}

pub fn application() -> Result<Application, Refusal> {
    Application::new(3).ok_or(Refusal::Damaged)
}

/// A device of application 3.
pub fn provisioning(dev_eui: u64) -> Result<Provisioning, Refusal> {
    Ok(Provisioning {
        application: application()?,
        dev_eui: Eui(dev_eui),
        join_eui: Eui(0x0102_0304_0506_0708),
        app_key: KEY,
        rx1_offset: Rx1Offset::new(0).ok_or(Refusal::Damaged)?,
        rx_delay: RxDelay::new(1).ok_or(Refusal::Damaged)?,
    })
}

fn bytes(alloc: Global, digits: &str) -> Result<AskedBytes, Refusal> {
    AskedBytes::new(read_hex(alloc, digits)?).map_err(|_| Refusal::TooLong)
}

/// An item of two bytes on port 7.
pub fn item(alloc: Global, dev_eui: u64, tag: u32) -> Result<Queueing, Refusal> {
    Ok(Queueing {
        application: application()?,
        dev_eui: Eui(dev_eui),
        tag: Tag(tag),
        port: 7,
        confirmed: false,
        payload: bytes(alloc, "04D2")?,
    })
}

/// DevStatusReq.
pub fn mac_command(alloc: Global, dev_eui: u64) -> Result<MacQueueing, Refusal> {
    Ok(MacQueueing {
        application: application()?,
        dev_eui: Eui(dev_eui),
        commands: bytes(alloc, "06")?,
    })
}

/// A gateway's copy of a frame, heard at a frequency in Hz.
pub fn copy(
    alloc: Global,
    gateway: u64,
    frequency: u32,
    digits: &str,
) -> Result<FrameCopy, Refusal> {
    let phy_payload = PhyPayload::new(read_hex(alloc, digits)?);
    Ok(FrameCopy {
        reception: Reception {
            gateway: Eui(gateway),
            frequency,
            data_rate: 5,
            snr: -20,
            rssi: -95,
        },
        stamp: 50_000,
        phy_payload: phy_payload.map_err(|_| Refusal::FrameTooLong)?,
    })
}
