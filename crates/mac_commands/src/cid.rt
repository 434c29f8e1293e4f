// The known MAC commands.
ghost use Rattle.std.specs.Prelude.{◌≡◌, ◌≢◌, ◌≤◌, IfNone, IfSome};

use crate::command::LONGEST_COMMAND_PAYLOAD;
use lw_types::Direction;

/// A command identifier. A request and its answer have the same identifier, in opposite directions.
#[derive(Clone, Copy, PartialEq, Eq)]
pub enum Cid {
    LinkCheck = 0x02,
    LinkAdr = 0x03,
    DutyCycle = 0x04,
    RxParamSetup = 0x05,
    DevStatus = 0x06,
    NewChannel = 0x07,
    RxTimingSetup = 0x08,
    TxParamSetup = 0x09,
    DlChannel = 0x0A,
    DeviceTime = 0x0D,
}

impl Cid {
    ghost use Rattle.mac_commands.specs.declared.cid.Cid.{Cid};
    ghost use Rattle.mac_commands.specs.Queueable.{may_be_queued};
    ghost use Rattle.mac_commands.specs.Reading.{is_link_check_cid, is_reported_cid};
    ghost use Rattle.mac_commands.specs.Table.{cid_number, payload_len};

    /// The byte of the identifier.
    pub fn number(self) -> u8
        ensures { result ≡ cid_number self }
    {
        self as u8
    }

    /// The identifier of a byte, if it is known.
    pub fn from_number(number: u8) -> Option<Self>
        ensures known { IfSome result (λ cid. cid_number cid ≡ number) }
        ensures unknown { IfNone result ((cid : Cid) → cid_number cid ≢ number) }
    {
        match number {
            0x02 => Some(Cid::LinkCheck),
            0x03 => Some(Cid::LinkAdr),
            0x04 => Some(Cid::DutyCycle),
            0x05 => Some(Cid::RxParamSetup),
            0x06 => Some(Cid::DevStatus),
            0x07 => Some(Cid::NewChannel),
            0x08 => Some(Cid::RxTimingSetup),
            0x09 => Some(Cid::TxParamSetup),
            0x0A => Some(Cid::DlChannel),
            0x0D => Some(Cid::DeviceTime),
            _ => None,
        }
    }

    /// Whether an application may queue the downlink command. It may queue LinkADRReq, DutyCycleReq
    /// and DevStatusReq.
    pub fn may_be_queued(self) -> bool
        ensures { result ≡ may_be_queued self }
    {
        matches!(self, Cid::LinkAdr | Cid::DutyCycle | Cid::DevStatus)
    }

    /// Whether the uplink command is reported to the application: all are, except LinkCheckReq,
    /// which the network answers, and DeviceTimeReq, which it ignores.
    pub fn is_reported(self) -> bool
        ensures { result ≡ is_reported_cid self }
    {
        !matches!(self, Cid::LinkCheck | Cid::DeviceTime)
    }

    /// Whether it is LinkCheckReq or LinkCheckAns.
    pub fn is_link_check(self) -> bool
        ensures { result ≡ is_link_check_cid self }
    {
        matches!(self, Cid::LinkCheck)
    }

    /// The number of bytes of a MAC command's payload, after its identifier, in a frame of this
    /// direction: at most 5 (TS001-1.0.4 §5).
    pub fn payload_len(self, direction: Direction) -> usize
        ensures length { result ≡ payload_len direction self }
        ensures few { result ≤ LONGEST_COMMAND_PAYLOAD }
    {
        let (up, down) = match self {
            Cid::LinkCheck => (0, 2),
            Cid::LinkAdr => (1, 4),
            Cid::DutyCycle => (0, 1),
            Cid::RxParamSetup => (1, 4),
            Cid::DevStatus => (2, 0),
            Cid::NewChannel => (1, 5),
            Cid::RxTimingSetup => (0, 1),
            Cid::TxParamSetup => (0, 1),
            Cid::DlChannel => (1, 4),
            Cid::DeviceTime => (0, 5),
        };
        match direction {
            Direction::Up => up,
            Direction::Down => down,
        }
    }
}
