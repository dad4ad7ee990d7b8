ghost use Rattle.transcript_text.specs.Said as said;

/// A line has one reading: its number and its observation can be told from its text.
pub fn lines_read_once()
    ensures { said.LinesToldOnce }
{}
