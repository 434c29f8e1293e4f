// Why a call doesn't do what was asked, with the number that texts and answers carry.
ghost use Rattle.std.specs.Prelude.{◌≡◌};

use std::alloc::{AllocError, AllocFailed};
use std::error::Error;
use std::fmt;

/// Why a call was refused. `number` gives the number that texts and answers carry.
#[derive(Clone, Copy, Debug, PartialEq, Eq)]
pub enum Refusal {
    /// A frame's bytes don't fit the grammar of TS001-1.0.4 §4, or a reserved bit isn't 0.
    Malformed,
    /// A frame is neither a Join-Request nor an uplink.
    NotServed,
    /// No session has an uplink's address.
    UnknownDevAddr,
    /// A Join-Request's MIC is wrong for its device. Or an uplink's MIC is right in no session,
    /// although the counter is near enough in at least one session that has its address.
    BadMic,
    /// An uplink's counter is too far above the last one in each session that has its address.
    CounterGap,
    /// An unconfirmed uplink comes again, with the last counter and the same MIC.
    Repeat,
    /// No device has the DevEUI of a Join-Request or of an application's request, or the device
    /// belongs to another application.
    UnknownDevEui,
    /// A Join-Request's JoinEUI isn't its device's.
    WrongJoinEui,
    /// A Join-Request's DevNonce isn't above the last one that was accepted from its device.
    DevNonceUsed,
    /// A Join-Request comes from a device that was granted the last JoinNonce, 16,777,215.
    JoinNonceSpent,
    /// An uplink has MAC commands in FOpts and is on port 0.
    MacBoth,
    /// An item is to be queued for a device that already has 16 items waiting.
    QueueFull,
    /// MAC commands are to be queued, and more than 128 bytes would then wait.
    MacQueueFull,
    /// An item is to be queued whose payload has more than 242 bytes.
    TooLong,
    /// An item is to be queued for port 0 or a port above 223.
    BadPort,
    /// A device is to be provisioned, but another device has its DevEUI.
    DevEuiTaken,
    /// A device is to be provisioned, but each slot has a device.
    TableFull,
    /// The bytes to be queued aren't one or more whole commands, each a LinkADRReq, a DutyCycleReq
    /// or a DevStatusReq.
    BadMac,
    /// A copy of a frame comes that no open window is for, and 1,024 windows are open.
    WindowsFull,
    /// A copy of a frame comes from a gateway of which the frame's window already has a copy.
    SameGateway,
    /// A copy of a frame comes, and its window already has 32 copies.
    CopiesFull,
    /// A command comes while 4,096 decisions wait to be taken, or after the last number, 2^63 - 1,
    /// was used.
    Backlog,
    /// A copy of a frame was heard on no channel, or at a data rate above 5; or a frame is on none
    /// of the channels on which it is served.
    UnknownChannel,
    /// A call ran out of memory.
    OutOfMemory,
    /// The disk failed in this call.
    DeviceFailed,
    /// The disk failed in an earlier call of this store. The store has to be opened again.
    Failed,
    /// A batch doesn't continue the durable table and its number.
    OutOfStep,
    /// The disk to be opened doesn't begin with the open gate and the name of a store.
    NotFormatted,
    /// The bytes of a store or of a record don't fit the layout; a store is to be made with no
    /// slots or with more than 4,096; or a checkpoint is to begin after the last generation.
    Damaged,
    /// The store to be opened, or its live area, has another version.
    WrongVersion,
    /// A store is opened, or made, on a disk whose length isn't the store's.
    WrongSize,
    /// A frame's length on a link is above 700, or a PHYPayload has more than 255 bytes.
    FrameTooLong,
    /// The content of a frame on a link, a line, or a text of a join is not a valid message.
    BadMessage,
    /// A link's bytes end in the middle of a frame.
    CutShort,
}

impl Refusal {
    ghost use Rattle.lw_types.specs.Refusal.{number_of, words_of};

    /// The number of this refusal. 1 to 24 are of commands. A refused command leaves every device
    /// as it was; but windows that were due are still closed, the effective time still moves on to
    /// the command's moment, and the refusal itself is an outcome. 30 is out of memory, 40 to 46
    /// are of the store, and 50 to 52 are of links and texts.
    pub fn number(self) -> u8
        ensures { result ≡ number_of self }
    {
        match self {
            Refusal::Malformed => 1,
            Refusal::NotServed => 2,
            Refusal::UnknownDevAddr => 3,
            Refusal::BadMic => 4,
            Refusal::CounterGap => 5,
            Refusal::Repeat => 6,
            Refusal::UnknownDevEui => 7,
            Refusal::WrongJoinEui => 8,
            Refusal::DevNonceUsed => 9,
            Refusal::JoinNonceSpent => 10,
            Refusal::MacBoth => 11,
            Refusal::QueueFull => 12,
            Refusal::MacQueueFull => 13,
            Refusal::TooLong => 14,
            Refusal::BadPort => 15,
            Refusal::DevEuiTaken => 16,
            Refusal::TableFull => 17,
            Refusal::BadMac => 18,
            Refusal::WindowsFull => 20,
            Refusal::SameGateway => 21,
            Refusal::CopiesFull => 22,
            Refusal::Backlog => 23,
            Refusal::UnknownChannel => 24,
            Refusal::OutOfMemory => 30,
            Refusal::DeviceFailed => 40,
            Refusal::Failed => 41,
            Refusal::OutOfStep => 42,
            Refusal::NotFormatted => 43,
            Refusal::Damaged => 44,
            Refusal::WrongVersion => 45,
            Refusal::WrongSize => 46,
            Refusal::FrameTooLong => 50,
            Refusal::BadMessage => 51,
            Refusal::CutShort => 52,
        }
    }

    /// This refusal in words, for a person.
    #[tactic(auto, unfolding(crate::specs::Refusal::words_of))]
    pub fn words(self) -> &'static str
        ensures { result.now ≡ words_of self }
    {
        match self {
            Refusal::Malformed => "the frame is not in the grammar",
            Refusal::NotServed => "frames of this type are not served here",
            Refusal::UnknownDevAddr => "no session has this DevAddr",
            Refusal::BadMic => "the MIC fits no session",
            Refusal::CounterGap => "the frame counter is too far ahead of the last one",
            Refusal::Repeat => "a repeat of an unconfirmed uplink",
            Refusal::UnknownDevEui => "the application has no device with this DevEUI",
            Refusal::WrongJoinEui => "the device has another JoinEUI",
            Refusal::DevNonceUsed => "the DevNonce is not above the last accepted one",
            Refusal::JoinNonceSpent => "the device was granted every JoinNonce",
            Refusal::MacBoth => "MAC commands in FOpts and on port 0 together",
            Refusal::QueueFull => "the device's queue has 16 items",
            Refusal::MacQueueFull => "the device's MAC queue has no room for these commands",
            Refusal::TooLong => "the payload is above 242 bytes",
            Refusal::BadPort => "the port is not from 1 to 223",
            Refusal::DevEuiTaken => "a device has this DevEUI already",
            Refusal::TableFull => "every slot of the table is taken",
            Refusal::BadMac => "these are not whole MAC commands that can be queued",
            Refusal::WindowsFull => "1,024 windows are open",
            Refusal::SameGateway => "the window has a copy of this gateway",
            Refusal::CopiesFull => "the window has 32 copies",
            Refusal::Backlog => "too many decisions wait to be committed",
            Refusal::UnknownChannel => "the frequency or the data rate is not a channel's",
            Refusal::OutOfMemory => "out of memory",
            Refusal::DeviceFailed => "the device failed in this call",
            Refusal::Failed => "an earlier call of this store failed: open it again",
            Refusal::OutOfStep => "the batch does not continue the durable state",
            Refusal::NotFormatted => "this is no formatted store",
            Refusal::Damaged => "the store is damaged",
            Refusal::WrongVersion => "the store has another version",
            Refusal::WrongSize => "the disk has another length than the store",
            Refusal::FrameTooLong => "the frame is too long",
            Refusal::BadMessage => "the message is not in the format",
            Refusal::CutShort => "the input ends inside a frame",
        }
    }
}

/// Shows the refusal in words.
impl fmt::Display for Refusal {
    ghost use Rattle.std.specs.Prelude.{Some};
    ghost use Rattle.lw_types.specs.Refusal.{words_of};

    ghost output = { λ refusal. Some (words_of refusal) };

    fn fmt<W: fmt::Write>(&self, f: &mut fmt::Formatter<W>) -> fmt::Result {
        f.write_str(self.words())
    }
}

impl Error for Refusal {}

impl From<AllocError> for Refusal {
    ghost use Rattle.std.specs.Prelude.{◌≡◌};
    ghost use Rattle.lw_types.specs.declared.refusal.Refusal.TheVariants.{OutOfMemory};

    ghost from_gives = { λ _ e. e ≡ OutOfMemory };

    fn from(_: AllocError) -> Self {
        Refusal::OutOfMemory
    }
}

impl<T: Drop> From<AllocFailed<T>> for Refusal {
    ghost use Rattle.std.specs.Prelude.{◌≡◌};
    ghost use Rattle.lw_types.specs.declared.refusal.Refusal.TheVariants.{OutOfMemory};

    ghost from_gives = { λ _ e. e ≡ OutOfMemory };

    fn from(_: AllocFailed<T>) -> Self {
        Refusal::OutOfMemory
    }
}
