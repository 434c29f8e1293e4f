// The Join-Request (TS001-1.0.4 §6.2.5).
ghost use Rattle.std.specs.Prelude.{◌≡◌, SomeIff, nat_eq};
ghost use Rattle.std.specs.Cmp.Lexicographic.{pointwise};
ghost use Rattle.frame_crypt.specs.Joins.{join_mic};
ghost use Rattle.join_server.specs.Request.{IsRequest, dev_eui_of, dev_nonce_of, join_eui_of};
ghost use Rattle.join_server.specs.Request.{mic_input, request_mic};

use frame_crypt::join_mic;
use lw_types::{Eui, FromText, HexArray, Key};
use std::marker::Model;

/// The 23 bytes of a Join-Request: an MHDR of 0, JoinEUI, DevEUI, DevNonce and MIC (TS001-1.0.4
/// §6.2.5).
#[derive(Clone, Copy, PartialEq, Eq)]
pub struct JoinRequestBytes {
    bytes: [u8; 23],
}

impl Model for JoinRequestBytes {
    ghost use Rattle.std.specs.Prelude.{List, ℕ};
    ghost use Rattle.join_server.specs.Request.{IsRequest};

    ghost Value = { List ℕ };

    ghost view = { λ r. r.bytes };

    ghost invariant = { λ r. IsRequest r.bytes };

    ghost inverse = { λ bytes. record { bytes = bytes } };
}

impl JoinRequestBytes {
    /// The Join-Request of these bytes; `None` if the MHDR isn't 0, so the bytes are no
    /// Join-Request.
    pub fn new(bytes: [u8; 23]) -> Option<Self>
        ensures { SomeIff result (IsRequest bytes) bytes }
    {
        if bytes[0] == 0 {
            Some(JoinRequestBytes { bytes })
        } else {
            None
        }
    }

    /// Its bytes.
    pub fn bytes(&self) -> [u8; 23]
        ensures value { result ≡ self.now }
        ensures request { IsRequest self.now }
    {
        self.bytes
    }

    /// The join server that the device asks.
    pub fn join_eui(&self) -> Eui
        ensures { result.0 ≡ join_eui_of self.now }
    {
        let mut bytes = [0; 8];
        bytes.copy_from_slice(&self.bytes[1..9]);
        Eui(u64::from_le_bytes(bytes))
    }

    /// The device that asks.
    pub fn dev_eui(&self) -> Eui
        ensures { result.0 ≡ dev_eui_of self.now }
    {
        let mut bytes = [0; 8];
        bytes.copy_from_slice(&self.bytes[9..17]);
        Eui(u64::from_le_bytes(bytes))
    }

    /// The device's number for this request.
    pub fn dev_nonce(&self) -> u16
        ensures { result ≡ dev_nonce_of self.now }
    {
        let mut bytes = [0; 2];
        bytes.copy_from_slice(&self.bytes[17..19]);
        u16::from_le_bytes(bytes)
    }

    /// Whether the Join-Request's MIC is the MIC of the bytes before it under this key (TS001-1.0.4
    /// §6.2.5).
    pub fn is_signed(&self, key: &Key) -> bool
        ensures { result ≡ pointwise nat_eq (request_mic self.now)
            (join_mic key.now.0 (mic_input self.now)) }
    {
        let (message, mic) = self.bytes.split_at(19);
        mic == join_mic(key, message).as_slice()
    }
}

/// The text has two digits for each byte; MHDR comes first.
impl FromText for JoinRequestBytes {
    ghost use Rattle.lw_types.specs.Hex.{IsBytes, hex_text};
    ghost use Rattle.join_server.specs.Request.{IsRequest};

    ghost is_value = { λ bytes. IsRequest bytes × IsBytes bytes };

    ghost text_of = { hex_text };

    fn from_text(text: &str) -> Option<Self> {
        let HexArray(bytes) = HexArray::from_text(text)?;
        JoinRequestBytes::new(bytes)
    }
}
