//! What the texts of values in records have to do with those that are written, and what is read with
//! the grammar of lines.
ghost use Rattle.rn_lines.specs.Laws.{ReadTextsAreWritten, WrittenTextsAreRead};
ghost use Rattle.rn_lines.specs.Laws.{LinesAreReadByTheirGrammar, LinesHoldNoLineFeed};

/// What was read, by names that fit its mentions, is what `write_value` writes, and what it writes
/// can be read.
pub fn value_laws()
    ensures read { ReadTextsAreWritten }
    ensures written { WrittenTextsAreRead }
{}

/// No line holds a line feed, so `first_line` cuts a record into its lines.
pub fn line_laws()
    ensures { LinesHoldNoLineFeed }
{}

/// What is read of a line, by the functions on bytes over which records are defined, is what it says by
/// the grammar of lines.
pub fn lines_are_read_by_their_grammar()
    ensures { LinesAreReadByTheirGrammar }
{}
