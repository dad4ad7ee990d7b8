ghost use Rattle.std.specs.Prelude.{◌≡◌, IfSome, IfNone};
ghost use Rattle.transcript_text.specs.declared.form.Form.{Form as FormValue};
ghost use Rattle.transcript_text.specs.Forms.{form_word};

/// The form of a line, which its first word tells: those that begin with `ignored` are one.
#[derive(Clone, Copy, PartialEq, Eq)]
pub(crate) enum Form {
    Up,
    Order,
    View,
    Active,
    Committed,
    Txn,
    Done,
    Refused,
    Down,
    NotActive,
    Ended,
    Locked,
    True,
    False,
    Value,
    Missing,
    Absent,
    WrongKind,
    Fault,
    Ignored,
    Progress,
    State,
    Rows,
}

// The form that a line's first word tells.
pub(crate) fn form_of(word: &[u8]) -> Option<Form>
    ensures some { IfSome result (λ form. word.now ≡ form_word form) }
    ensures none { IfNone result ((form : FormValue) → word.now ≡ form_word form → ⊥) }
{
    match word {
        word if word == b"up".as_slice() => Some(Form::Up),
        word if word == b"order".as_slice() => Some(Form::Order),
        word if word == b"view".as_slice() => Some(Form::View),
        word if word == b"active".as_slice() => Some(Form::Active),
        word if word == b"committed".as_slice() => Some(Form::Committed),
        word if word == b"txn".as_slice() => Some(Form::Txn),
        word if word == b"ok".as_slice() => Some(Form::Done),
        word if word == b"refused".as_slice() => Some(Form::Refused),
        word if word == b"down".as_slice() => Some(Form::Down),
        word if word == b"notactive".as_slice() => Some(Form::NotActive),
        word if word == b"ended".as_slice() => Some(Form::Ended),
        word if word == b"locked".as_slice() => Some(Form::Locked),
        word if word == b"true".as_slice() => Some(Form::True),
        word if word == b"false".as_slice() => Some(Form::False),
        word if word == b"value".as_slice() => Some(Form::Value),
        word if word == b"none".as_slice() => Some(Form::Missing),
        word if word == b"absent".as_slice() => Some(Form::Absent),
        word if word == b"wrongkind".as_slice() => Some(Form::WrongKind),
        word if word == b"fault".as_slice() => Some(Form::Fault),
        word if word == b"ignored".as_slice() => Some(Form::Ignored),
        word if word == b"progress".as_slice() => Some(Form::Progress),
        word if word == b"state".as_slice() => Some(Form::State),
        word if word == b"rows".as_slice() => Some(Form::Rows),
        _ => None,
    }
}
