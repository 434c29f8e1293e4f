// Uplinks that are refused. Frames were made by Python's `cryptography`.
use crate::decisions::records::{IN_USE, WAITING};
use crate::network::{Comes, FRESH, Refused, State};
use lw_types::Refusal;

// Each refusal, and the first of two.
pub(super) const REFUSALS: &[Refused] = &[
    // 11 bytes
    (
        IN_USE,
        Comes::Frame("4001000054000100445EC5"),
        Refusal::Malformed,
    ),
    (
        IN_USE,
        Comes::Frame("60010000540001008E57A525"),
        Refusal::NotServed,
    ),
    (
        IN_USE,
        Comes::Frame("A0010000540001004CD2B173"),
        Refusal::NotServed,
    ),
    (
        IN_USE,
        Comes::Frame("20964FABE971240AB8E37F72AEFDC360B6FD3C4BE3FB883149AF03F6CC89235E53"),
        Refusal::NotServed,
    ),
    (
        IN_USE,
        Comes::Frame("40010000540101000200F3329096B6"),
        Refusal::MacBoth,
    ),
    // before its address
    (
        IN_USE,
        Comes::Frame("40020000540101000200C79ADC5C88"),
        Refusal::MacBoth,
    ),
    // before its MIC
    (
        IN_USE,
        Comes::Frame("40010000540101000200F3329096B7"),
        Refusal::MacBoth,
    ),
    // before its counter
    (
        IN_USE,
        Comes::Frame("40010000540101400200268FCFAC3A"),
        Refusal::MacBoth,
    ),
    // no session
    (
        FRESH,
        Comes::Frame("4001000054000100445EC542"),
        Refusal::UnknownDevAddr,
    ),
    // before its counter
    (
        IN_USE,
        Comes::Frame("4002000054000140113F5E98"),
        Refusal::UnknownDevAddr,
    ),
    (
        IN_USE,
        Comes::Frame("40010000D400010075327654"),
        Refusal::UnknownDevAddr,
    ),
    // another network
    (
        IN_USE,
        Comes::Frame("4001000056000100F1EEA817"),
        Refusal::UnknownDevAddr,
    ),
    // another JoinNonce
    (
        IN_USE,
        Comes::Frame("40020000540001005C6E2EB7"),
        Refusal::UnknownDevAddr,
    ),
    // a slot without a device
    (
        IN_USE,
        Comes::Frame("4001200054000100ED81EC79"),
        Refusal::UnknownDevAddr,
    ),
    // a slot beyond the table
    (
        IN_USE,
        Comes::Frame("4001E0FF550001001B580D57"),
        Refusal::UnknownDevAddr,
    ),
    // before its MIC
    (
        IN_USE,
        Comes::Frame("40020000540001005C6E2EB6"),
        Refusal::UnknownDevAddr,
    ),
    (
        IN_USE,
        Comes::Frame("4001000054000100445EC543"),
        Refusal::BadMic,
    ),
    // of a session that doesn't exist
    (
        IN_USE,
        Comes::Frame("400100005400010083B97874"),
        Refusal::BadMic,
    ),
    // an unsigned repeat
    (
        State {
            last_up: 5,
            ..IN_USE
        },
        Comes::Frame("400100005400050030A6F894"),
        Refusal::BadMic,
    ),
    // the MIC of the low 16 bits
    (
        State {
            last_up: 65_541,
            ..IN_USE
        },
        Comes::Frame("400100005400050030A6F895"),
        Refusal::BadMic,
    ),
    (
        IN_USE,
        Comes::Frame("4001000054000140ACA26F2E"),
        Refusal::CounterGap,
    ),
    // before its MIC
    (
        IN_USE,
        Comes::Frame("4001000054000140ACA26F2F"),
        Refusal::CounterGap,
    ),
    // an earlier counter
    (
        State {
            last_up: 5,
            ..IN_USE
        },
        Comes::Frame("4001000054000400B9EEAB86"),
        Refusal::CounterGap,
    ),
    // no counter is above the last
    (
        State {
            last_up: 4_294_967_295,
            ..IN_USE
        },
        Comes::Frame("40010000540000001BF1C7F9"),
        Refusal::CounterGap,
    ),
    // too far for both
    (
        State {
            last_up: 7,
            ..WAITING
        },
        Comes::Frame("40010000540030753968A066"),
        Refusal::CounterGap,
    ),
    // too far for one
    (
        State {
            last_up: 29_999,
            ..WAITING
        },
        Comes::Frame("40010000540030753968A067"),
        Refusal::BadMic,
    ),
    // too far for the other
    (
        State {
            last_up: 40_000,
            ..WAITING
        },
        Comes::Frame("40010000540009003A324461"),
        Refusal::BadMic,
    ),
    (
        State {
            last_up: 5,
            ..IN_USE
        },
        Comes::Frame("400100005400050030A6F895"),
        Refusal::Repeat,
    ),
    (
        State {
            last_up: 5,
            ..WAITING
        },
        Comes::Frame("400100005400050030A6F895"),
        Refusal::Repeat,
    ),
];
