ghost use Rattle.provider_law.specs.Laws.{UndoTakesBack};

/// Operations that were applied, and then undone down to a version that they don't touch, leave every view as before.
pub fn undo_takes_back_what_was_applied()
    ensures { UndoTakesBack }
{}
