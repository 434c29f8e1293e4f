//! Laws on the definitions that the contracts of this crate cite. Each is the contract of a
//! function that has no other use.
ghost use Rattle.std.specs.Prelude.{◌≡◌, ◌<◌, ◌^◌, ℕ, true, nat_eq, IfOk, Err, List, SomeIff};
ghost use Rattle.std.specs.Cmp.Lexicographic.{pointwise};
ghost use Rattle.lw_types.specs.declared.refusal.Refusal.TheVariants.{UnknownDevAddr};
ghost use Rattle.frame_crypt.specs.Joins.{join_mic};
ghost use Rattle.phy_payload.specs.declared.data_frame.DataFrame.{DataFrame};
ghost use Rattle.uplinks.specs.Fit.{fit_of};
ghost use Rattle.join_server.specs.Join.{admission};
ghost use Rattle.join_server.specs.Request.{mic_input, request_mic};
ghost use Rattle.sessions.specs.Join.{join_state};
ghost use Rattle.devices.specs.declared.device.Device.{Device};
ghost use Rattle.device_changes.specs.Device.{retired_device};
ghost use Rattle.device_changes.specs.declared.change.Retirement.{Retirement};

use crate::LastJoinNonce;

/// A last JoinNonce is below 2^24, and 0 if none was granted.
pub fn last_join_nonces_are_below_2_to_the_24(number: u64) -> Option<LastJoinNonce>
    ensures { SomeIff result (number < 2 ^ 24) number }
{
    LastJoinNonce::new(number)
}

/// A retired device is heard no more: no uplink is in a session of its own. It joins again only
/// with a Join-Request that is signed under the AppKey with which it was retired.
pub fn a_retired_device_is_out()
    ensures unheard { (r : Retirement) (d : Device) (net_id slot : ℕ) (frame : DataFrame) →
        fit_of net_id slot (retired_device r d).activation frame ≡ Err UnknownDevAddr }
    ensures unjoined { (r : Retirement) (d : Device) (request : List ℕ) →
        IfOk (admission (join_state (retired_device r d)) request)
        (λ _. pointwise nat_eq (request_mic request) (join_mic r.app_key.0 (mic_input request))
        ≡ true) }
{}
