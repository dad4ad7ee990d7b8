ghost use Rattle.std.specs.Prelude.{◌≡◌, ◌≤◌};
ghost use Rattle.rc_base.specs.Quorum as size;

/// How many of `n` members have to hold what counts as written: more than half of them.
pub fn write_quorum(n: u64) -> u64
    requires { 1 ≤ n }
    ensures { result ≡ size.write_quorum n }
{
    n / 2 + 1
}

/// How many of `n` members have to answer, so that one of them holds all that a write quorum holds: half of
/// them, rounded up.
pub fn read_quorum(n: u64) -> u64
    requires { 1 ≤ n }
    ensures { result ≡ size.read_quorum n }
{
    n / 2 + n % 2
}
