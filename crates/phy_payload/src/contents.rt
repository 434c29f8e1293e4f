// What a data frame carries (TS001-1.0.4 §4.3.1.6, §4.3.2, §4.3.3).
ghost use Rattle.std.specs.Prelude.{◌≡◌, ◌+◌, ◌≤◌, length};
ghost use Rattle.phy_payload.specs.Contents.{carried_contents, frm_payload_len};

use lw_types::{Bytes, LONGEST_PAYLOAD, Payload};
use std::alloc::AllocError;
use std::marker::Model;

/// The most bytes of FOpts: its length has four bits of FCtrl (TS001-1.0.4 §4.3.1.6).
pub const LONGEST_F_OPTS: usize = 15;

/// MAC commands in the frame's header, of at most 15 bytes.
pub type FOpts = Bytes<LONGEST_F_OPTS>;

/// The payload of a frame with a port, encrypted as it is on air, at most 242 bytes.
pub type FrmPayload = Payload;

/// A port and its payload. On port 0 the payload is MAC commands.
#[derive(Clone, PartialEq, Eq, Drop)]
pub struct PortPayload {
    pub f_port: u8,
    pub frm_payload: FrmPayload,
}

/// FOpts and, if there is a port, FPort and FRMPayload. FOpts and FRMPayload have at most 242 bytes
/// together, so the frame has at most 255.
#[derive(PartialEq, Eq, Drop)]
pub struct Contents {
    f_opts: FOpts,
    port_payload: Option<PortPayload>,
}

impl Model for Contents {
    ghost use Rattle.std.specs.Prelude.{◌+◌, ◌≤◌, length};
    ghost use Rattle.lw_types.specs.declared.payload.TheConstants.{LONGEST_PAYLOAD};
    ghost use Rattle.phy_payload.specs.Contents.{Carried, frm_payload_len};

    ghost Value = { Carried };

    ghost view = { λ c. record { f_opts = c.f_opts; port_payload = c.port_payload } };

    ghost invariant = { λ c. length c.f_opts + frm_payload_len c.port_payload ≤ LONGEST_PAYLOAD };

    ghost inverse = { λ v. record { f_opts = v.f_opts; port_payload = v.port_payload } };
}

impl Contents {
    ghost use Rattle.std.specs.Option.{option_copied};

    /// These parts. FOpts and FRMPayload may have at most 242 bytes together.
    pub fn new(f_opts: FOpts, port_payload: Option<PortPayload>) -> Self
        requires { length f_opts + frm_payload_len port_payload ≤ LONGEST_PAYLOAD }
        ensures { result ≡ carried_contents f_opts port_payload }
    {
        Contents {
            f_opts,
            port_payload,
        }
    }

    /// FOpts, at most 15 bytes.
    pub fn f_opts(&self) -> &[u8]
        ensures bytes { result.now ≡ self.now.f_opts }
        ensures few { length self.now.f_opts ≤ LONGEST_F_OPTS }
    {
        self.f_opts.as_slice()
    }

    /// FPort and FRMPayload, if there is a port.
    pub fn port_payload(&self) -> Option<&PortPayload>
        ensures port_payload { option_copied result ≡ self.now.port_payload }
        ensures fits { length self.now.f_opts + frm_payload_len self.now.port_payload
            ≤ LONGEST_PAYLOAD }
    {
        self.port_payload.as_ref()
    }

    /// FOpts, and the port with its payload.
    pub fn into_parts(self) -> (FOpts, Option<PortPayload>)
        ensures f_opts { result.0 ≡ self.f_opts }
        ensures port_payload { result.1 ≡ self.port_payload }
        ensures fits { length self.f_opts + frm_payload_len self.port_payload ≤ LONGEST_PAYLOAD }
    {
        let Contents {
            f_opts,
            port_payload,
        } = self;
        (f_opts, port_payload)
    }
}

impl Clone for Contents {
    ghost is_clone = { λ s t. t ≡ s };

    fn clone(&self) -> Result<Self, AllocError> {
        Ok(Contents {
            f_opts: self.f_opts.clone()?,
            port_payload: self.port_payload.clone()?,
        })
    }
}
