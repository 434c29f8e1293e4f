// An event as the windows see it: first the windows that are due close, then the copy comes.
ghost use Rattle.std.specs.Prelude.{◌≤◌, All, OnOk};
ghost use Rattle.devices.specs.Heard.{IsReceivable};
ghost use Rattle.dedup.specs.Windows.{IsCurrent};

use dedup::{Windows, laws};
use devices::Heard;
use lw_types::{FrameCopy, Refusal};
use std::alloc::AllocError;

// A closed window as one number: the last byte of its frame, times 100, plus the number of its
// copies.
fn told(heard: &Heard) -> usize {
    let last = heard.phy_payload.as_slice().last().copied().unwrap_or(0);
    usize::from(last) * 100 + heard.hearings.as_slice().len()
}

// Closes each window that is due.
pub fn close_due(windows: &mut Windows, now: u64, closed: &mut Vec<usize>) -> Result<(), AllocError>
    requires { All (λ w. w.opened ≤ now) windows.old }
    ensures { OnOk result (IsCurrent now windows.new) }
{
    while let Some(heard) = windows.close(now) {
        closed.push(told(&heard))?;
    }
    Ok(())
}

// The number of the refusal, or 0 if the copy is taken.
pub fn event(
    windows: &mut Windows,
    now: u64,
    copy: FrameCopy,
    closed: &mut Vec<usize>,
) -> Result<u8, AllocError>
    requires earlier { All (λ w. w.opened ≤ now) windows.old }
    requires receivable { IsReceivable copy.reception }
    ensures { OnOk result (All (λ w. w.opened ≤ now) windows.new) }
{
    close_due(windows, now, closed)?;
    laws::a_copy_makes_no_window_due();
    match windows.add(now, copy) {
        Ok(()) => Ok(0),
        Err(refusal) => Ok(refusal.number()),
    }
}
