// The frame of a downlink (TS001-1.0.4 §4.3, §4.4).
ghost use Rattle.std.specs.Prelude.{◌≡◌, ◌≤◌, ◌<◌, ◌+◌, ◌^◌, [], ◌∷◌, length, MatchResult};
ghost use Rattle.lw_types.specs.declared.refusal.Refusal.TheVariants.{OutOfMemory};
ghost use Rattle.phy_payload.specs.Frame.{spelling};
ghost use Rattle.phy_payload.specs.declared.phy.Phy.{Phy};
ghost use Rattle.downlinks.specs.Frame.{sent_frame, frame_with, is_confirmed, item_payload};
ghost use Rattle.downlinks.specs.Load.{item_len};

use devices::{CurrentSession, Item};
use frame_crypt::{crypt_payload, data_mic};
use lw_types::{DevAddr, Direction, LONGEST_PAYLOAD, Payload, PhyPayload, Refusal};
use phy_payload::{Contents, Control, DataFrame, FOpts, Mic, PortPayload, encode_mic_input};
use std::alloc::Global;

/// The parts of a downlink, except its counter.
#[derive(Drop)]
pub(crate) struct DownlinkFields {
    pub(crate) f_opts: FOpts,
    pub(crate) item: Option<Item>,
    /// The uplink was confirmed.
    pub(crate) ack: bool,
    /// More downlinks wait for the device.
    pub(crate) f_pending: bool,
}

impl DownlinkFields {
    /// The frame of these fields, under the session's keys and its next counter. If memory runs
    /// out, it is refused as `OutOfMemory`.
    #[tactic(auto, unfolding(crate::specs::Frame::sent_frame, phy_payload::specs::Frame::spelling))]
    pub(crate) fn into_phy_payload(
        self,
        alloc: Global,
        addr: DevAddr,
        current: &CurrentSession,
    ) -> Result<PhyPayload, Refusal>
        requires left { current.now.next_down < 2 ^ 32 }
        requires short { length self.f_opts + item_len self.item ≤ LONGEST_PAYLOAD }
        ensures { MatchResult result
            (λ frame. frame ≡ spelling (Phy.DataFrame (sent_frame addr current.now self)))
            (λ e. e ≡ OutOfMemory) }
    {
        let counter = next_counter(current);
        let frame = self.into_frame(addr, current);
        let mut bytes = Vec::new(alloc);
        encode_mic_input(alloc, &frame, &mut bytes)?;
        let key = current.session.nwk_skey;
        let mic = data_mic(&key, Direction::Down, addr, counter, bytes.as_slice());
        bytes.extend_from_slice(&mic)?;
        Ok(PhyPayload::new(bytes).unwrap())
    }

    // The frame with zeros in place of its MIC.
    fn into_frame(self, addr: DevAddr, current: &CurrentSession) -> DataFrame
        requires left { current.now.next_down < 2 ^ 32 }
        requires short { length self.f_opts + item_len self.item ≤ LONGEST_PAYLOAD }
        ensures { result ≡ frame_with (record { 0 = 0 ∷ 0 ∷ 0 ∷ 0 ∷ [] }) addr current.now self }
    {
        let DownlinkFields {
            f_opts,
            item,
            ack,
            f_pending,
        } = self;
        let counter = next_counter(current);
        let confirmed = is_confirmed(&item);
        let port_payload = match item {
            None => None,
            Some(item) => Some(item_payload(addr, current, item)),
        };
        DataFrame {
            confirmed,
            dev_addr: addr,
            control: Control::Downlink {
                adr: false,
                ack,
                f_pending,
            },
            f_cnt: (counter % (1 << 16)) as u16,
            contents: Contents::new(f_opts, port_payload),
            mic: Mic([0; 4]),
        }
    }
}

/// The counter of the session's next downlink.
pub(crate) fn next_counter(current: &CurrentSession) -> u32
    requires { current.now.next_down < 2 ^ 32 }
    ensures { result ≡ current.now.next_down }
{
    current.next_down.get() as u32
}

// Whether the frame is confirmed.
fn is_confirmed(item: &Option<Item>) -> bool
    ensures { result ≡ is_confirmed item.now }
{
    match item {
        None => false,
        Some(item) => item.confirmed,
    }
}

// FPort, and the item's payload, encrypted in place.
fn item_payload(addr: DevAddr, current: &CurrentSession, item: Item) -> PortPayload
    requires { current.now.next_down < 2 ^ 32 }
    ensures port_payload { Some result ≡ item_payload addr current.now (Some item) }
    ensures length { length result.frm_payload ≡ length item.payload }
{
    frame_crypt::laws::a_crypted_payload_has_the_length();
    let f_port = item.port.get() as u8;
    let key = current.session.app_skey;
    let counter = next_counter(current);
    let mut payload = item.payload.into_vec();
    crypt_payload(&key, Direction::Down, addr, counter, payload.as_mut_slice());
    PortPayload {
        f_port,
        frm_payload: Payload::new(payload).unwrap(),
    }
}
