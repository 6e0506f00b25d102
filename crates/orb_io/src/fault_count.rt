//! How every object here counts its faults.
ghost use Rattle.std.specs.Prelude.{◌≡◌};
ghost use Rattle.orb_io.specs.Told.{Rose};
ghost use Rattle.orb_io.specs.Counts.{one_more};

use crate::outside::Failed;

/// Counts one fault more.
pub(crate) fn raised(faults: &mut u64) -> Failed
    ensures after { faults.new ≡ one_more faults.old }
    ensures rose { Rose faults.old faults.new }
{
    *faults = faults.saturating_add(1);
    Failed
}
