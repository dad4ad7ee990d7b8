ghost use Rattle.std.specs.Prelude.{◌≡◌, ◌<◌};

use std::marker::Model;

/// One of the four areas of a disk. Contracts see its number, which is below 4.
#[derive(Clone, Copy, Debug, PartialEq, Eq)]
pub struct Area {
    number: u32,
}

impl Model for Area {
    ghost use Rattle.std.specs.Prelude.{ℕ, ◌<◌};

    ghost Value = { ℕ };

    ghost view = { λ a. a.number };

    ghost invariant = { λ a. a.number < 4 };

    ghost inverse = { λ n. record { number = n } };
}

impl Area {
    /// How many areas a disk has.
    pub const COUNT: u32 = 4;

    /// The area with this number.
    pub fn new(number: u32) -> Area
        requires { number < 4 }
        ensures { result ≡ number }
    {
        Area { number }
    }

    /// Its number, from 0 to 3.
    pub fn number(self) -> u32
        ensures number { result ≡ self }
        ensures below { self < 4 }
    {
        self.number
    }
}

/// The first log area.
pub const LOG0: Area = Area { number: 0 };
/// The second log area.
pub const LOG1: Area = Area { number: 1 };
/// The first slot for images.
pub const SLOT0: Area = Area { number: 2 };
/// The second slot for images.
pub const SLOT1: Area = Area { number: 3 };
