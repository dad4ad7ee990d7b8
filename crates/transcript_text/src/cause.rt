ghost use Rattle.std.specs.Prelude.{◌≡◌, IfSome, IfNone};
ghost use Rattle.transcript_text.specs.declared.cause.Cause.{Cause as CauseValue};
ghost use Rattle.transcript_text.specs.Forms.{cause_word};

/// Why an event was ignored, which the word after `ignored` tells.
#[derive(Clone, Copy, PartialEq, Eq)]
pub(crate) enum Cause {
    Up,
    OldEpoch,
}

// The cause that the word after `ignored` tells.
pub(crate) fn cause_of(word: &[u8]) -> Option<Cause>
    ensures some { IfSome result (λ cause. word.now ≡ cause_word cause) }
    ensures none { IfNone result ((cause : CauseValue) → word.now ≡ cause_word cause → ⊥) }
{
    match word {
        word if word == b"up".as_slice() => Some(Cause::Up),
        word if word == b"oldepoch".as_slice() => Some(Cause::OldEpoch),
        _ => None,
    }
}
