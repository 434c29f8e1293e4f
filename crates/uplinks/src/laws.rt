//! Laws on the definitions that the contracts of this crate cite. Each is the contract of a
//! function that does nothing.
ghost use Rattle.std.specs.Prelude.{◌≡◌, ℕ, Ok};
ghost use Rattle.devices.specs.Heard.{IsReceivable};
ghost use Rattle.devices.specs.declared.channels.Channels.TheVariants.{Eight};
ghost use Rattle.devices.specs.declared.heard.Hearing.{Hearing};
ghost use Rattle.phy_payload.specs.declared.data_frame.DataFrame.{DataFrame};
ghost use Rattle.devices.specs.Activation.{Grants};
ghost use Rattle.uplinks.specs.declared.fit.Fit.{Fit};
ghost use Rattle.uplinks.specs.Candidates.{candidates, verdict_among};
ghost use Rattle.uplinks.specs.Fit.{fit_of, fitted_session, IsOf};
ghost use Rattle.uplinks.specs.Step.{if_on_channel};

/// The session into which an uplink fits is the device's pending or current one. In the current
/// one, a new counter is above the last one.
pub fn a_fit_is_of_its_device()
    ensures { (net_id slot : ℕ) (g : Grants) (frame : DataFrame) (fit : Fit) →
        fit_of net_id slot g frame ≡ Ok fit → IsOf g fit }
{
    counters::laws::new_counters_grow();
}

/// A frame belongs to the first session whose MIC it has, under the counter that it has there. The
/// candidates are the device's sessions with exactly the frame's address, the pending one before
/// the current one. A frame that belongs to none is refused: as `UnknownDevAddr` if there is no
/// candidate; as `CounterGap` if in each candidate the counter is too far above the last one;
/// otherwise as `BadMic`.
pub fn a_frame_is_of_the_first_session_that_fits()
    ensures { (net_id slot : ℕ) (g : Grants) (frame : DataFrame) →
        fit_of net_id slot g frame ≡ verdict_among frame (candidates net_id slot g frame) }
{}

/// An uplink of a session with all eight channels is never refused for its channel, since copies
/// are only taken on these channels.
pub fn eight_channels_are_all()
    ensures { (best : Hearing) (fit : Fit) → IsReceivable best.reception
        → (fitted_session fit).channels ≡ Eight → if_on_channel best fit ≡ Ok fit }
{}
