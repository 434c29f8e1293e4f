//! Laws of the region's tables. Each is the contract of a function that does nothing.
ghost use Rattle.std.specs.Prelude.{◌≡◌, ◌≤◌, ℕ, ℤ, slice_index};
ghost use Rattle.region_eu868.specs.Region.{cf_list, margin_of, max_payloads, IsMargin};

use crate::{CF_LIST, RX2_FREQUENCY};

/// No MACPayload is longer than 250 bytes.
pub fn payloads_are_short()
    ensures { (data_rate : ℕ) → data_rate ≤ 5 → slice_index max_payloads data_rate ≤ 250 }
{}

/// No margin is above 254, so 255 stays free (TS001-1.0.4 §5.1).
pub fn margins_are_small()
    ensures of_any { (snr : ℤ) (data_rate m : ℕ) → IsMargin snr data_rate m → m ≤ 254 }
    ensures computed { (snr : ℤ) (data_rate : ℕ) → margin_of snr data_rate ≤ 254 }
{}

/// The CFList spells the channels that a Join-Accept adds.
pub fn the_cf_list_is_of_the_later_channels()
    ensures { CF_LIST ≡ cf_list }
{}

/// RX2 is at 869.525 MHz.
pub fn limits_are_these()
    ensures { RX2_FREQUENCY ≡ 869525000 }
{}
