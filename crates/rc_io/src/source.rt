ghost use Rattle.std.specs.Prelude.{◌≡◌, ◌<◌, ◌≤◌, [], Option, List, ℕ, length, take, drop, IfOk, OnErr, IsErr};
ghost use Rattle.std.specs.Option.{ForSome, option_map};
ghost use Rattle.rc_base.specs.Counts.{Counted};

use crate::failed::Failed;

/// What gives bytes, one piece after another, to an end.
pub trait Source {
    /// The bytes that it has left to give, where it tells them.
    ghost left: { Self → Option (List ℕ) };

    /// How often it has failed. The count never falls, and stands still at 2^64 - 1.
    ghost faults: { Self → ℕ };

    /// Takes bytes from the front of what is left into the front of the buffer, and answers how many. It answers 0
    /// only at the end of the input. What stands behind them in the buffer is left open.
    ///
    /// # Errors
    /// `Failed` only where the source's count of faults rose. It has left then what it had.
    fn read(&mut self, buf: &mut [u8]) -> Result<usize, Failed>
        requires { 0 < length buf.old }
        ensures within { IfOk result (λ n. n ≤ length buf.old) }
        ensures taken { IfOk result (λ n. ForSome (left self.old) (λ bytes. (n ≤ length bytes) × (take n buf.new ≡ take n bytes))) }
        ensures left { IfOk result (λ n. left self.new ≡ option_map (drop n) (left self.old)) }
        ensures end { IfOk result (λ n. n ≡ 0 → ForSome (left self.old) (λ bytes. bytes ≡ [])) }
        ensures failed { OnErr result (left self.new ≡ left self.old) }
        ensures cause { Counted (faults self.old) (faults self.new) (IsErr result) };
}
