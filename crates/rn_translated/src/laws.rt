//! Laws of the translation, as contracts of functions that do nothing.
ghost use Rattle.rn_translated.specs.RunLaws.{RunsCorrespond, EndsCorrespond, OneInstanceAlone};
ghost use Rattle.rn_translated.specs.AcceptedLaws.{TranslationsAreChecked, SpotsDoNotCount};
ghost use Rattle.rn_translated.specs.AcceptedLaws.{TranslationsAreAccepted, OneSystemIsRead};
ghost use Rattle.rn_translated.specs.AcceptedLaws.{TextsHaveTheirLength};
ghost use Rattle.rn_translated.specs.RunLaws.{RunsHaveOccurrences, EachRunIsWeighted};
ghost use Rattle.rn_translated.specs.RecordLaws.{RecordsAreOfRuns};

use rn_print::printing_laws;

/// A weighted net and the system that stands for it have the same runs.
pub fn translations_run_alike()
    ensures runs { RunsCorrespond }
    ensures ends { EndsCorrespond }
    ensures alone { OneInstanceAlone }
    ensures occurrences { RunsHaveOccurrences }
    ensures each { EachRunIsWeighted }
{}

/// No rule is broken in the translation of a weighted net, and it means that system. Its canonical
/// text, if it is no longer than a net text may be, is accepted with that system.
pub fn translations_are_accepted()
    ensures checked { TranslationsAreChecked }
    ensures spots { SpotsDoNotCount }
    ensures accepted { TranslationsAreAccepted }
    ensures read { OneSystemIsRead }
{
    // For its clause: what a canonical text is read as is what it was written of, but for spots.
    printing_laws();
}

/// The canonical text of the translation has as many bytes as `text_length` of `rn_weighted` says.
pub fn translations_have_their_length()
    ensures { TextsHaveTheirLength }
{}

/// The texts of the runs of that system, with their ends and marks, are those of the runs of the
/// weighted net.
pub fn records_tell_runs()
    ensures { RecordsAreOfRuns }
{}
