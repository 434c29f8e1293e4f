// What goes into a downlink (TS001-1.0.4 §4.3.1.6, §5.1).
ghost use Rattle.std.specs.Prelude.{◌≡◌, ◌≤◌, ◌+◌, ◌-◌, length, is_some, slice_get, None, IfOk};
ghost use Rattle.std.specs.Prelude.{MatchBool, MatchResult};
ghost use Rattle.lw_types.specs.declared.refusal.Refusal.TheVariants.{OutOfMemory};
ghost use Rattle.devices.specs.Heard.{IsReceivable};
ghost use Rattle.downlinks.specs.Load.{f_opts_of, fitting_item, item_len};
ghost use Rattle.downlinks.specs.Load.{is_downlink_due, own_answers};
ghost use Rattle.downlinks.specs.Load.{link_check_ans, rx1_data_rate, without_load};

use devices::{Copies, Device, Hearing, Item};
use lw_types::{LONGEST_PAYLOAD, Reception, Refusal};
use phy_payload::FOpts;
use region_eu868::{ReceiveWindow, margin, max_mac, rx1};
use std::alloc::{AllocError, Global};

// LinkCheckAns (TS001-1.0.4 §5.1).
const LINK_CHECK_ANS: u8 = 0x02;

/// What a new uplink asks of the network, and how it was heard.
#[derive(Clone, Copy)]
pub struct Demand {
    /// The uplink is confirmed.
    pub confirmed: bool,
    /// The device asks whether it is still heard (TS001-1.0.4 §4.3.1.1).
    pub adr_ack_req: bool,
    /// LinkCheckReq is among the uplink's MAC commands.
    pub link_check: bool,
    /// The copy that was heard best.
    pub best: Hearing,
    /// The number of gateways that heard the uplink.
    pub copies: Copies,
}

/// What a downlink carries: FOpts, and the first item if it fits.
#[derive(Drop)]
pub(crate) struct Load {
    pub(crate) f_opts: FOpts,
    pub(crate) item: Option<Item>,
}

impl Load {
    /// Takes out of a device's queues what the downlink carries. If memory runs out, it is refused
    /// as `OutOfMemory`.
    pub(crate) fn take(alloc: Global, device: &mut Device, asked: &Demand) -> Result<Self, Refusal>
        requires { IsReceivable asked.now.best.reception }
        ensures load { MatchResult result
            (λ load. (load.f_opts ≡ f_opts_of device.old asked.now)
            × (load.item ≡ fitting_item device.old asked.now)
            × (device.new ≡ without_load device.old asked.now))
            (λ e. e ≡ OutOfMemory) }
        ensures short { IfOk result
            (λ load. length load.f_opts + item_len load.item ≤ LONGEST_PAYLOAD) }
    {
        let goes = first_item_goes(device, asked);
        let f_opts = f_opts(alloc, device, asked)?;
        device.mac_queue.leave(asked.room());
        let item = if goes { device.items.pop_first() } else { None };
        Ok(Load { f_opts, item })
    }
}

/// Whether a downlink is due: the uplink asks for one, MAC commands wait, or an item fits. Takes no
/// memory.
pub(crate) fn is_downlink_due(device: &Device, asked: &Demand) -> bool
    requires { IsReceivable asked.now.best.reception }
    ensures { result ≡ is_downlink_due device.now asked.now }
{
    asked.confirmed
        || asked.adr_ack_req
        || asked.link_check
        || !device.mac_queue.as_slice().is_empty()
        || first_item_goes(device, asked)
}

impl Demand {
    // How many bytes of FOpts are left for MAC commands after the network's own answers.
    fn room(&self) -> u8
        ensures { result ≡ 15 - length (own_answers self.now) }
    {
        if self.link_check { 12 } else { 15 }
    }

    // The network's own answers.
    fn answers(&self, alloc: Global) -> Result<Vec<u8>, AllocError>
        requires { IsReceivable self.now.best.reception }
        ensures { IfOk result (λ bytes. bytes.items ≡ own_answers self.now) }
    {
        if self.link_check {
            Vec::from_slice(alloc, &self.link_check_ans())
        } else {
            Ok(Vec::new(alloc))
        }
    }

    // LinkCheckAns, with Margin and GwCnt: the answer to a LinkCheckReq.
    fn link_check_ans(&self) -> [u8; 3]
        requires { IsReceivable self.now.best.reception }
        ensures { result ≡ link_check_ans self.now }
    {
        let reception = self.best.reception;
        let copies = self.copies.get() as u8;
        [
            LINK_CHECK_ANS,
            margin(reception.snr, reception.data_rate),
            copies,
        ]
    }
}

// FOpts: the network's answers, then MAC commands.
fn f_opts(alloc: Global, device: &Device, asked: &Demand) -> Result<FOpts, AllocError>
    requires { IsReceivable asked.now.best.reception }
    ensures { IfOk result (λ f_opts. f_opts ≡ f_opts_of device.now asked.now) }
{
    let mut bytes = asked.answers(alloc)?;
    let going = device.mac_queue.fitting(asked.room());
    bytes.extend_from_slice(&device.mac_queue.as_slice()[..going])?;
    Ok(FOpts::new(bytes).unwrap())
}

// The length of FOpts, at most 15.
fn f_opts_len(device: &Device, asked: &Demand) -> usize
    ensures length { result ≡ length (f_opts_of device.now asked.now) }
    ensures few { result ≤ 15 }
{
    let room = asked.room();
    usize::from(15 - room) + device.mac_queue.fitting(room)
}

// Whether the oldest item fits: DevAddr, FCtrl and FCnt (7 bytes), FOpts, FPort and the payload
// together must be within the largest MACPayload of RX1.
fn first_item_goes(device: &Device, asked: &Demand) -> bool
    requires { IsReceivable asked.now.best.reception }
    ensures goes { result ≡ is_some (fitting_item device.now asked.now) }
    ensures which { MatchBool result
        (fitting_item device.now asked.now ≡ slice_get device.now.items 0)
        (fitting_item device.now asked.now ≡ None) }
    ensures short { length (f_opts_of device.now asked.now)
        + item_len (fitting_item device.now asked.now) ≤ LONGEST_PAYLOAD }
{
    region_eu868::laws::payloads_are_short();
    let f_opts_len = f_opts_len(device, asked);
    match device.items.as_slice().first() {
        Some(item) => {
            let longest = max_mac(rx1_of(device, &asked.best).data_rate);
            7 + f_opts_len + 1 + item.payload.len() <= usize::from(longest)
        }
        None => false,
    }
}

/// RX1 of an uplink with this best copy.
pub(crate) fn rx1_of(device: &Device, best: &Hearing) -> ReceiveWindow
    requires { IsReceivable best.now.reception }
    ensures frequency { result.frequency ≡ best.now.reception.frequency }
    ensures data_rate { result.data_rate ≡ rx1_data_rate device.now best.now }
    ensures in_range { result.data_rate ≤ 5 }
{
    let Reception {
        frequency,
        data_rate,
        ..
    } = best.reception;
    rx1(frequency, data_rate, device.rx1_offset.get() as u8)
}
