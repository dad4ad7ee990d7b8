ghost use Rattle.std.specs.Prelude.{◌↔◌, IsTrue};
ghost use Rattle.std.specs.Ordering.{nat_cmp};
ghost use Rattle.std.specs.Cmp.Lexicographic.{slice_cmp};
ghost use Rattle.std.specs.List.Sorted.{IsStrictlySortedBy};
ghost use Rattle.std.specs.Map.{keys_of};

use rc_base::Bytes;

// Whether the keys rise.
pub(crate) fn keys_rise(pairs: &[(Bytes, Bytes)]) -> bool
    ensures { IsTrue result ↔ IsStrictlySortedBy (slice_cmp nat_cmp) (keys_of pairs.now) }
{
    let mut place = 1;
    while place < pairs.len() {
        if pairs[place - 1].0 >= pairs[place].0 {
            return false;
        }
        place += 1;
    }
    true
}
