//! What `replay` comes to is one answer, and the text that `gen` runs is accepted.
ghost use Rattle.rn_commands.specs.Laws.{MovesGoWithReplay, OneAnswerToRecord, OneParting};
ghost use Rattle.rn_commands.specs.Laws.{WorkloadsAreAccepted};

use rn_gen::workload_laws;
use rn_record_reader::record_laws;
use rn_replay::replay_laws;

/// The input of `replay` has one net text and one record.
pub fn parts_laws()
    ensures { OneParting }
{}

/// A record comes to one answer: it isn't both refused and accepted, and has one line or one text.
pub fn answer_laws()
    ensures { OneAnswerToRecord }
{
    record_laws();
    replay_laws();
}

/// What `moves` comes to has the status and the line of what `replay` comes to.
pub fn moves_laws()
    ensures { MovesGoWithReplay }
{}

/// The text that `gen` runs is a net text, for each number of workers.
pub fn gen_laws()
    ensures { WorkloadsAreAccepted }
{
    workload_laws();
}
