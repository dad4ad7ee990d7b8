ghost use Rattle.std.specs.Prelude.{◌≡◌};
ghost use Rattle.txn_table.specs.Epochs as order;

use rc_base::Epoch;

// The later of two epochs.
pub(crate) fn later(a: Epoch, b: Epoch) -> Epoch
    ensures { result ≡ order.later a b }
{
    if a < b { b } else { a }
}
