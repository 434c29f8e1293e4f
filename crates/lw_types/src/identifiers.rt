// The names of devices, sessions and networks.
ghost use Rattle.std.specs.Prelude.{◌≡◌, ◌<◌, ◌^◌, ℕ, Some};
ghost use Rattle.std.specs.Option.{SomeIff};

use crate::hex_text;
use crate::text::FromText;
use std::fmt;
use std::marker::Model;

/// A 64-bit extended unique identifier: a DevEUI, a JoinEUI or a gateway's EUI (TS001-1.0.4
/// §6.1.1).
#[derive(Clone, Copy, Debug, PartialEq, Eq, PartialOrd, Ord)]
pub struct Eui(pub u64);

/// The 32-bit address of a session in a frame (TS001-1.0.4 §6.1.1.1).
#[derive(Clone, Copy, Debug, PartialEq, Eq)]
pub struct DevAddr(pub u32);

/// A network identifier of type 0 below 64, so that its six low bits are the whole of it.
#[derive(Clone, Copy, Debug, PartialEq, Eq)]
pub struct NetId {
    number: u8,
}

impl Model for NetId {
    ghost Value = { ℕ };

    ghost view = { λ n. n.number };

    ghost invariant = { λ n. n.number < 64 };

    ghost inverse = { λ n. record { number = n } };
}

impl NetId {
    /// The network of this number, from 0 to 63; `None` above.
    pub fn new(value: u32) -> Option<Self>
        ensures { SomeIff result (value < 64) value }
    {
        if value < 64 {
            Some(NetId {
                number: value as u8,
            })
        } else {
            None
        }
    }

    /// The network of number 0.
    pub fn zero() -> Self
        ensures { result ≡ 0 }
    {
        NetId { number: 0 }
    }

    /// The number of the network, from 0 to 63.
    pub fn get(self) -> u8
        ensures value { result ≡ self }
        ensures range { self < 64 }
    {
        self.number
    }
}

/// The number of a join that was granted to a device, from 1 to 16,777,215 (TS001-1.0.4 §6.2.6).
#[derive(Clone, Copy, Debug, PartialEq, Eq)]
pub struct JoinNonce {
    value: u32,
}

impl Model for JoinNonce {
    ghost Value = { ℕ };

    ghost view = { λ n. n.value };

    ghost invariant = { λ n. (0 < n.value) × (n.value < 2 ^ 24) };

    ghost inverse = { λ n. record { value = n } };
}

impl JoinNonce {
    /// The JoinNonce of this number, from 1 to 16,777,215; `None` at 0 and above.
    pub fn new(value: u32) -> Option<Self>
        ensures { SomeIff result ((0 < value) × (value < 2 ^ 24)) value }
    {
        if 0 < value && value < 1 << 24 {
            Some(JoinNonce { value })
        } else {
            None
        }
    }

    /// The number, from 1 to 16,777,215.
    pub fn get(self) -> u32
        ensures value { result ≡ self }
        ensures not_zero { 0 < self }
        ensures range { self < 2 ^ 24 }
    {
        self.value
    }
}

/// Shows the 16 digits of the number.
impl fmt::Display for Eui {
    ghost use Rattle.std.specs.Prelude.{Some};
    ghost use Rattle.lw_types.specs.Hex.{eui_text};

    ghost output = { λ eui. Some (eui_text eui) };

    #[tactic(auto, unfolding(crate::specs::Hex::eui_text))]
    fn fmt<W: fmt::Write>(&self, f: &mut fmt::Formatter<W>) -> fmt::Result {
        hex_text::show(f, &self.0.to_be_bytes())
    }
}

impl FromText for Eui {
    ghost use Rattle.std.specs.Prelude.{◌<◌, ◌^◌};
    ghost use Rattle.lw_types.specs.Hex.{eui_text};

    ghost is_value = { λ eui. eui.0 < 2 ^ 64 };

    ghost text_of = { eui_text };

    fn from_text(text: &str) -> Option<Self> {
        Some(Eui(u64::from_be_bytes(hex_text::read_array(text)?)))
    }
}

/// Shows the 8 digits of the number.
impl fmt::Display for DevAddr {
    ghost use Rattle.std.specs.Prelude.{Some};
    ghost use Rattle.lw_types.specs.Hex.{dev_addr_text};

    ghost output = { λ address. Some (dev_addr_text address) };

    #[tactic(auto, unfolding(crate::specs::Hex::dev_addr_text))]
    fn fmt<W: fmt::Write>(&self, f: &mut fmt::Formatter<W>) -> fmt::Result {
        hex_text::show(f, &self.0.to_be_bytes())
    }
}

impl FromText for DevAddr {
    ghost use Rattle.std.specs.Prelude.{◌<◌, ◌^◌};
    ghost use Rattle.lw_types.specs.Hex.{dev_addr_text};

    ghost is_value = { λ address. address.0 < 2 ^ 32 };

    ghost text_of = { dev_addr_text };

    fn from_text(text: &str) -> Option<Self> {
        Some(DevAddr(u32::from_be_bytes(hex_text::read_array(text)?)))
    }
}

/// Shows the 6 digits of the number.
impl fmt::Display for NetId {
    ghost use Rattle.std.specs.Prelude.{Some};
    ghost use Rattle.lw_types.specs.Hex.{net_id_text};

    ghost output = { λ network. Some (net_id_text network) };

    #[tactic(auto, unfolding(crate::specs::Hex::net_id_text))]
    fn fmt<W: fmt::Write>(&self, f: &mut fmt::Formatter<W>) -> fmt::Result {
        hex_text::show(f, &[0, 0, self.get()])
    }
}

impl FromText for NetId {
    ghost use Rattle.std.specs.Prelude.{◌<◌};
    ghost use Rattle.lw_types.specs.Hex.{net_id_text};

    ghost is_value = { λ network. network < 64 };

    ghost text_of = { net_id_text };

    fn from_text(text: &str) -> Option<Self> {
        let [high, middle, low] = hex_text::read_array::<3>(text)?;
        NetId::new(u32::from_be_bytes([0, high, middle, low]))
    }
}
