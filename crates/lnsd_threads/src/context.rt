// What a life gets from its caller.
use crate::{Gate, LifeClock};
use lnsd_operator::DiskTimes;
use std::alloc::Global;
use std::sync::Wait;

/// The system and its memory, and the gate and the clock, which a test replaces by its own.
#[derive(Drop)]
pub struct Context<'x, R: Wait, G: Gate, C: LifeClock> {
    pub rt: &'x R,
    pub alloc: Global,
    pub gate: &'x G,
    pub clock: &'x C,
    // What operators see of the disk, if there are operators.
    pub times: Option<&'x DiskTimes>,
}
