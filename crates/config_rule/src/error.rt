ghost use Rattle.std.specs.Prelude.{◌≡◌};
ghost use Rattle.config_rule.specs.declared.error.RuleError.TheVariants.{NoMemory};

use thiserror::Error;

/// The least part of the rule that fails: 1 to 6 of an appointment, 7 or 8 of an activation.
#[derive(Clone, Copy, Debug, PartialEq, Eq, Error)]
#[error("part {part} of the rule fails")]
pub struct Broken {
    pub part: u8,
}

/// Why a replica wasn't appointed.
#[derive(Clone, Copy, Debug, PartialEq, Eq, Error)]
pub enum RuleError {
    /// The rule is broken.
    #[error("part {} of the rule fails", .0.part)]
    Broken(Broken),
    /// Out of memory.
    #[error("out of memory")]
    NoMemory,
}

impl From<rc_base::NoMemory> for RuleError {
    ghost from_gives = { λ _ e. e ≡ NoMemory };

    fn from(_: rc_base::NoMemory) -> RuleError {
        RuleError::NoMemory
    }
}

impl From<Broken> for RuleError {
    ghost use Rattle.std.specs.Prelude.{◌≡◌};
    ghost use Rattle.config_rule.specs.declared.error.RuleError.TheVariants.{Broken as IsBroken};

    ghost from_gives = { λ b e. e ≡ IsBroken b };

    fn from(broken: Broken) -> RuleError {
        RuleError::Broken(broken)
    }
}
