//! What records tell.
ghost use Rattle.rn_record_reader.specs.Laws.{OneReading, OneSpelling, TellsWholeRuns, TextsTell};
ghost use Rattle.rn_record_reader.specs.Laws.{ToldMarksAreNamed, RecordsMigrate};

/// The bytes of a record tell one run with its marks, or have one first bad line, and not both. Where
/// they tell a run, they are the text of that run, which ends once. The text of a log that has ended
/// tells that log. Marks name instances that the firings of their run made. What a record of format
/// 1 tells, its text of format 2 tells too.
pub fn record_laws()
    ensures reading { OneReading }
    ensures spelling { OneSpelling }
    ensures whole { TellsWholeRuns }
    ensures texts { TextsTell }
    ensures named { ToldMarksAreNamed }
    ensures migrate { RecordsMigrate }
{}
