// The MHDR of each FType (TS001-1.0.4 §4.2): bits 7 to 5. Bits 4 to 0, which are RFU and Major, are
// 0.

pub(crate) const JOIN_REQUEST: u8 = 0x00;

pub(crate) const JOIN_ACCEPT: u8 = 0x20;

pub(crate) const UNCONFIRMED_DATA_UP: u8 = 0x40;

pub(crate) const UNCONFIRMED_DATA_DOWN: u8 = 0x60;

pub(crate) const CONFIRMED_DATA_UP: u8 = 0x80;

pub(crate) const CONFIRMED_DATA_DOWN: u8 = 0xA0;

pub(crate) const RFU: u8 = 0xC0;

pub(crate) const PROPRIETARY: u8 = 0xE0;
