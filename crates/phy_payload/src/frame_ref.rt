// Frames that refer to the bytes they were read from.
ghost use Rattle.std.specs.Prelude.{◌≡◌, ◌+◌, ◌≤◌, length, MatchResult};
ghost use Rattle.lw_types.specs.declared.refusal.Refusal.TheVariants.{OutOfMemory};
ghost use Rattle.phy_payload.specs.Contents.{carried_contents, frm_payload_len};
ghost use Rattle.phy_payload.specs.Reading.{port_payload_of};
ghost use Rattle.phy_payload.specs.Seen.{seen_port_payload, phy_of, OwnsFrame};

use crate::contents::{Contents, FOpts, FrmPayload, LONGEST_F_OPTS, PortPayload};
use crate::control::Control;
use crate::data_frame::DataFrame;
use crate::join::{JoinAccept, JoinRequest};
use crate::phy::{Mic, Phy};
use lw_types::{DevAddr, LONGEST_PAYLOAD, Refusal};
use std::alloc::Global;
use std::marker::Model;

/// A port and its payload, in the bytes they were read from.
#[derive(Clone, Copy)]
pub struct PortPayloadRef<'a> {
    pub f_port: u8,
    pub frm_payload: &'a [u8],
}

/// A data frame whose FOpts and FRMPayload stay in the bytes they were read from. In contracts it
/// is the [`DataFrame`].
#[derive(Drop)]
pub struct DataFrameRef<'a> {
    pub(crate) confirmed: bool,
    pub(crate) dev_addr: DevAddr,
    pub(crate) control: Control,
    pub(crate) f_cnt: u16,
    pub(crate) f_opts: &'a [u8],
    // Empty, or FPort and FRMPayload.
    pub(crate) behind: &'a [u8],
    pub(crate) mic: Mic,
}

impl<'a> Model for DataFrameRef<'a> {
    ghost use Rattle.phy_payload.specs.declared.data_frame.DataFrame.{DataFrame};

    ghost Value = { DataFrame };

    ghost use Rattle.phy_payload.specs.SeenFrame.{seen_frame, IsSeen};

    ghost view = { seen_frame };

    ghost invariant = { IsSeen };
}

impl<'a> DataFrameRef<'a> {
    /// Whether the receiver has to acknowledge it.
    pub fn confirmed(&self) -> bool
        ensures { result ≡ self.now.confirmed }
    {
        self.confirmed
    }

    /// The address of its session.
    pub fn dev_addr(&self) -> DevAddr
        ensures { result ≡ self.now.dev_addr }
    {
        self.dev_addr
    }

    /// Its direction and the bits of FCtrl.
    pub fn control(&self) -> Control
        ensures { result ≡ self.now.control }
    {
        self.control
    }

    /// The low 16 bits of the frame counter.
    pub fn f_cnt(&self) -> u16
        ensures { result ≡ self.now.f_cnt }
    {
        self.f_cnt
    }

    /// FOpts, at most 15 bytes.
    pub fn f_opts(&self) -> &'a [u8]
        ensures bytes { result.now ≡ self.now.contents.f_opts }
        ensures few { length result.now ≤ LONGEST_F_OPTS }
    {
        self.f_opts
    }

    /// FPort and FRMPayload, if there is a port.
    pub fn port_payload(&self) -> Option<PortPayloadRef<'a>>
        ensures port_payload { seen_port_payload result ≡ self.now.contents.port_payload }
        ensures fits { length self.now.contents.f_opts
            + frm_payload_len self.now.contents.port_payload ≤ LONGEST_PAYLOAD }
    {
        let (f_port, frm_payload) = self.behind.split_first()?;
        Some(PortPayloadRef {
            f_port: *f_port,
            frm_payload,
        })
    }

    /// The MIC.
    pub fn mic(&self) -> Mic
        ensures { result ≡ self.now.mic }
    {
        self.mic
    }

    /// The frame in newly allocated memory. If memory runs out, it is refused as `OutOfMemory`.
    pub fn to_frame(&self, alloc: Global) -> Result<DataFrame, Refusal>
        ensures { MatchResult result (λ frame. frame ≡ self.now) (λ e. e ≡ OutOfMemory) }
    {
        Ok(DataFrame {
            confirmed: self.confirmed,
            dev_addr: self.dev_addr,
            control: self.control,
            f_cnt: self.f_cnt,
            contents: contents_from(alloc, self.f_opts, self.behind)?,
            mic: self.mic,
        })
    }
}

// FOpts, and what follows it: nothing, or FPort and FRMPayload.
fn contents_from(alloc: Global, f_opts: &[u8], behind: &[u8]) -> Result<Contents, Refusal>
    requires few { length f_opts.now ≤ 15 }
    requires fits { length f_opts.now + length behind.now ≤ 243 }
    ensures { MatchResult result (λ c. c ≡ carried_contents f_opts.now (port_payload_of behind.now))
        (λ e. e ≡ OutOfMemory) }
{
    let port_payload = match behind.split_first() {
        None => None,
        Some((f_port, payload)) => Some(PortPayload {
            f_port: *f_port,
            frm_payload: FrmPayload::from_slice(alloc, payload)?,
        }),
    };
    Ok(Contents::new(FOpts::from_slice(alloc, f_opts)?, port_payload))
}

/// A frame (TS001-1.0.4 §4.2.1) that refers to the bytes it was read from.
#[derive(Drop)]
pub enum PhyRef<'a> {
    JoinRequest(JoinRequest),
    JoinAccept(JoinAccept),
    DataFrame(DataFrameRef<'a>),
}

impl<'a> PhyRef<'a> {
    /// The frame in memory of its own. Only a data frame takes memory. If memory runs out, it is
    /// refused as `OutOfMemory`.
    pub fn to_phy(&self, alloc: Global) -> Result<Phy, Refusal>
        ensures { OwnsFrame (phy_of self.now) result }
    {
        match self {
            PhyRef::JoinRequest(request) => Ok(Phy::JoinRequest(*request)),
            PhyRef::JoinAccept(accept) => Ok(Phy::JoinAccept(*accept)),
            PhyRef::DataFrame(frame) => Ok(Phy::DataFrame(frame.to_frame(alloc)?)),
        }
    }
}
