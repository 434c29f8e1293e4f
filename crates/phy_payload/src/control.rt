// The bits of FCtrl that are not the length of FOpts (TS001-1.0.4 §4.3.1.1 to §4.3.1.4).
ghost use Rattle.std.specs.Prelude.{◌≡◌, ◌<◌, ◌≤◌};
ghost use Rattle.phy_payload.specs.Frame.{bit, f_ctrl};
ghost use Rattle.phy_payload.specs.Reading.{control_of, is_set};

use lw_types::Direction;

const ADR: u8 = 0x80;

const ADR_ACK_REQ: u8 = 0x40;

const ACK: u8 = 0x20;

const F_PENDING: u8 = 0x10;
// Used only by class B in an uplink, and RFU in a downlink: always 0 here.
const UP_UNUSED: u8 = 0x10;

const DOWN_UNUSED: u8 = 0x40;

/// The direction of a data frame, and the bits of its FCtrl in this direction.
#[derive(Clone, Copy, PartialEq, Eq)]
pub enum Control {
    /// From the device to the network.
    Uplink {
        /// The network may set the data rate.
        adr: bool,
        /// The device asks for a downlink.
        adr_ack_req: bool,
        /// The last confirmed downlink was received.
        ack: bool,
    },
    /// From the network to the device.
    Downlink {
        /// The network may set the data rate.
        adr: bool,
        /// The last confirmed uplink was received.
        ack: bool,
        /// More downlinks wait for the device.
        f_pending: bool,
    },
}

fn is_set(byte: u8, value: u8) -> bool
    requires { 0 < value }
    ensures { result ≡ is_set byte value }
{
    byte / value % 2 == 1
}

fn bit(value: u8, is_set: bool) -> u8
    ensures { result ≡ bit value is_set }
{
    if is_set { value } else { 0 }
}

impl Control {
    /// The bits of an FCtrl; `None` if the bit that is unused in this direction is set.
    pub(crate) fn of(direction: Direction, f_ctrl: u8) -> Option<Self>
        ensures { result ≡ control_of direction f_ctrl }
    {
        let adr = is_set(f_ctrl, ADR);
        let ack = is_set(f_ctrl, ACK);
        match direction {
            Direction::Up if is_set(f_ctrl, UP_UNUSED) => None,
            Direction::Up => Some(Control::Uplink {
                adr,
                adr_ack_req: is_set(f_ctrl, ADR_ACK_REQ),
                ack,
            }),
            Direction::Down if is_set(f_ctrl, DOWN_UNUSED) => None,
            Direction::Down => Some(Control::Downlink {
                adr,
                ack,
                f_pending: is_set(f_ctrl, F_PENDING),
            }),
        }
    }

    /// The FCtrl of a frame with `f_opts_len` bytes of FOpts.
    pub(crate) fn f_ctrl(self, f_opts_len: u8) -> u8
        requires { f_opts_len ≤ 15 }
        ensures { result ≡ f_ctrl self f_opts_len }
    {
        match self {
            Control::Uplink {
                adr,
                adr_ack_req,
                ack,
            } => bit(ADR, adr) + bit(ADR_ACK_REQ, adr_ack_req) + bit(ACK, ack) + f_opts_len,
            Control::Downlink {
                adr,
                ack,
                f_pending,
            } => bit(ADR, adr) + bit(ACK, ack) + bit(F_PENDING, f_pending) + f_opts_len,
        }
    }
}
