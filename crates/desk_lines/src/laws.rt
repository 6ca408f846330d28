//! Laws of lines. Each function runs to no effect: what it says is its contract.

ghost use Rattle.desk_lines.specs.Laws.{LinesJoin, LinesAreFound};

/// The lines of each text are well ended, and their bytes, one behind the other, are the text.
pub fn text_is_its_lines()
    ensures { LinesJoin }
{}

/// Lines that are well ended are those of the text that they make: no other lines make it.
pub fn well_ended_lines_are_found()
    ensures { LinesAreFound }
{}
