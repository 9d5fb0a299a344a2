//! What excludes what, and that texts of runs are read, from laws of the crates below.
ghost use Rattle.rn_record_reader.specs.Laws.{OneReading};
ghost use Rattle.rn_app.specs.Laws.{AcceptedIsNotRefused, OneSystemAccepted, RunIsRead};
ghost use Rattle.rn_app.specs.Laws.{NotationsAreFormats, OneNotation};

use rn_check::laws::checked_texts_are_good;
use rn_net::net_laws;
use rn_readable::logs_are_readable;
use rn_record_reader::record_laws;
use rn_state_record::logs_have_text;

/// A net text isn't both accepted and refused, and has one system and one notation, which is a format
/// of records. The bytes of a record tell one thing, and the text of a run is read as this run.
pub fn input_laws()
    ensures texts { AcceptedIsNotRefused }
    ensures systems { OneSystemAccepted }
    ensures notations { OneNotation }
    ensures formats { NotationsAreFormats }
    ensures readings { OneReading }
    ensures read { RunIsRead }
{
    net_laws();
    checked_texts_are_good();
    record_laws();
    logs_have_text();
    logs_are_readable();
}
