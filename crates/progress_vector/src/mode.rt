ghost use Rattle.std.specs.Prelude.{Some};
ghost use Rattle.progress_vector.specs.Modes.{mode_text};

use rc_base::Lsn;
use std::fmt;

/// What a copy has to do at a target that is to have what a source has.
#[derive(Clone, Copy, Debug, PartialEq, Eq)]
pub enum Mode {
    /// Nothing: the target has all that the source has.
    Same,
    /// The target gets the source's records behind this position, its own last one.
    Partial { from: Lsn },
    /// The target takes away its records above the fork, and gets the source's records behind it.
    Undo { fork: Lsn },
    /// The target takes the source's state as a whole.
    Full,
}

/// Prints `none`, `partial@L`, `undo@L` or `full`.
impl fmt::Display for Mode {
    ghost output = { λ mode. Some (mode_text mode) };

    fn fmt<W: fmt::Write>(&self, f: &mut fmt::Formatter<W>) -> fmt::Result {
        match self {
            Mode::Same => write!(f, "none"),
            Mode::Partial { from } => {
                let lsn = from.0;
                write!(f, "partial@{lsn}")
            }
            Mode::Undo { fork } => {
                let lsn = fork.0;
                write!(f, "undo@{lsn}")
            }
            Mode::Full => write!(f, "full"),
        }
    }
}
