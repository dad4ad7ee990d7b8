ghost use Rattle.std.specs.Prelude.{◌≡◌};
ghost use Rattle.rc_base.specs.Limits.{limit_word};

use std::fmt;

/// The limits at which a run ends. Each prints as its name in small letters.
#[derive(Clone, Copy, Debug, PartialEq, Eq)]
pub enum LimitName {
    /// More than 1,000,000 lines of input.
    Lines,
    /// A line of more than 4,096 bytes before its LF.
    Line,
    /// More than 16,777,216 bytes of input.
    Bytes,
    /// A made name past 65,536 that are seen.
    Names,
    /// More than 4,096 lawful appointments.
    Epochs,
    /// More than 1,000,000 numbered packets, or 268,435,456 bytes of them.
    Packets,
    /// A log of a store whose last position is above 2^48 - 4.
    Lsn,
    /// A fence of a store whose configuration number is the last, 2^32 - 1.
    Number,
}

impl LimitName {
    /// Its word: its name in small letters.
    pub fn word(self) -> &'static str
        ensures { result.now ≡ limit_word self }
    {
        match self {
            LimitName::Lines => "lines",
            LimitName::Line => "line",
            LimitName::Bytes => "bytes",
            LimitName::Names => "names",
            LimitName::Epochs => "epochs",
            LimitName::Packets => "packets",
            LimitName::Lsn => "lsn",
            LimitName::Number => "number",
        }
    }
}

impl fmt::Display for LimitName {
    ghost use Rattle.std.specs.Prelude.{Some};

    ghost output = { λ limit. Some (limit_word limit) };

    fn fmt<W: fmt::Write>(&self, f: &mut fmt::Formatter<W>) -> fmt::Result {
        f.write_str(self.word())
    }
}
