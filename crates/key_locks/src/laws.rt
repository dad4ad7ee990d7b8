ghost use Rattle.key_locks.specs.Laws as laws;

/// A caller that keeps a list of grants of its own, alike to the table's, knows the table's answers and keeps it alike
/// by the same grants and releases: the order between grants of different names can't be seen.
pub fn alike_grants_stay_alike()
    ensures answers { laws.AlikeAnswerAlike }
    ensures grant { laws.AlikeAfterGrant }
    ensures release { laws.AlikeAfterRelease }
    ensures equivalence { laws.AlikeIsEquivalence }
{}
