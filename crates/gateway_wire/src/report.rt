// The reports to applications about their devices.
ghost use Rattle.std.specs.Prelude.{◌≡◌, ◌≤◌, ◌+◌, ◌∷◌, [], length, IfOk};
ghost use Rattle.std.specs.Fmt.{decimal};
ghost use Rattle.lw_types.specs.Hex.{eui_text};
ghost use Rattle.lw_types.specs.Words.{line_of};
ghost use Rattle.devices.specs.declared.effect.Report.TheVariants.{Mac, MacQueued};
ghost use Rattle.gateway_wire.specs.AppLine.{report_line};

use crate::answer::LONGEST_ANSWER;
use devices::{Payload, Report};
use link_messages::Line;
use lw_types::{ByteField, Eui, JoinNonce};
use std::alloc::{AllocError, Global};

/// The line of a report on a device.
pub(crate) fn report_line(alloc: Global, dev_eui: Eui, report: &Report) -> Result<Line, AllocError>
    ensures line { IfOk result (λ line. line ≡ report_line dev_eui report.now) }
    ensures short { IfOk result (λ line. length line ≤ LONGEST_ANSWER) }
{
    match report {
        Report::Provisioned { slot } => number_line(
            alloc,
            "provisioned",
            dev_eui,
            u32::from(*slot),
        ),
        Report::Queued { tag } => number_line(alloc, "queued", dev_eui, tag.0),
        Report::MacQueued { commands } => waiting_line(alloc, dev_eui, commands),
        Report::Acked { tag } => number_line(alloc, "acked", dev_eui, tag.0),
        Report::Lost { tag } => number_line(alloc, "lost", dev_eui, tag.0),
        Report::Mac {
            join_nonce,
            commands,
        } => sent_line(alloc, dev_eui, *join_nonce, commands),
        Report::Spent { join_nonce } => number_line(alloc, "spent", dev_eui, join_nonce.get()),
    }
}

// The line of a report with a number.
#[tactic(auto, unfolding(lw_types::specs::Words::line_of))]
fn number_line(alloc: Global, name: &str, dev_eui: Eui, number: u32) -> Result<Line, AllocError>
    ensures line { IfOk result (λ line. line
        ≡ line_of (name.now ∷ eui_text dev_eui ∷ decimal number ∷ [])) }
    ensures short { IfOk result (λ line. length line ≤ length name.now + 28) }
{
    let text = format!(in alloc; "{name} {dev_eui} {number}")?;
    Ok(Line::new(text))
}

// The line of MAC commands that wait.
#[tactic(auto, unfolding(lw_types::specs::Words::line_of))]
fn waiting_line(alloc: Global, dev_eui: Eui, commands: &Payload) -> Result<Line, AllocError>
    ensures line { IfOk result (λ line. line ≡ report_line dev_eui (MacQueued commands.now)) }
    ensures short { IfOk result (λ line. length line ≤ LONGEST_ANSWER) }
{
    let hex = ByteField(commands.as_slice());
    let text = format!(in alloc; "macqueued {dev_eui} {hex}")?;
    Ok(Line::new(text))
}

// The line of MAC commands that the device sent.
#[tactic(auto, unfolding(lw_types::specs::Words::line_of))]
fn sent_line(
    alloc: Global,
    dev_eui: Eui,
    join_nonce: JoinNonce,
    commands: &Payload,
) -> Result<Line, AllocError>
    ensures line { IfOk result (λ line. line ≡ report_line dev_eui (Mac join_nonce commands.now)) }
    ensures short { IfOk result (λ line. length line ≤ LONGEST_ANSWER) }
{
    let nonce = join_nonce.get();
    let hex = ByteField(commands.as_slice());
    let text = format!(in alloc; "mac {dev_eui} {nonce} {hex}")?;
    Ok(Line::new(text))
}
