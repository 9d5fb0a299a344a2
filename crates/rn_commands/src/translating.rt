//! The command `pt`: the reference net that stands for a weighted net.
ghost use Rattle.std.specs.Prelude.{◌≡◌, ◌⊎◌, IfOk, IfErr};
ghost use Rattle.rn_items.specs.Memory.{no_memory};
ghost use Rattle.rn_weighted.specs.Weighted.{IsWeighted};
ghost use Rattle.rn_pt.specs.Texts.{Spells};
ghost use Rattle.rn_answering.specs.declared.status.TheConstants.{NET_REFUSED};
ghost use Rattle.rn_answering.specs.Refusing.{Concludes, Stops, refusal};
ghost use Rattle.rn_commands.specs.Translating.{pt_line, IsUnrefused, RefusesWeighted, TranslatesTo};

use rn_answering::{Answer, Stopped, done, refused_at};
use rn_print::print_system;
use rn_pt::{PtFault, read_pt};
use rn_translated::{translate, translations_are_accepted, translations_have_their_length};
use rn_weighted::Weighted;
use std::alloc::Global;

// The refusal of a text that spells no weighted net.
fn refused_text(alloc: Global, why: PtFault) -> Stopped
    ensures line { Stops (λ a. a ≡ refusal NET_REFUSED (pt_line why)) result }
    ensures memory { why ≡ PtFault.NoMemory no_memory → result ≡ Stopped.NoMemory no_memory }
{
    match why {
        PtFault::P1(spot) => refused_at(alloc, b"P1", spot),
        PtFault::P3(spot) => refused_at(alloc, b"P3", spot),
        PtFault::P4(spot) => refused_at(alloc, b"P4", spot),
        PtFault::P6(spot) => refused_at(alloc, b"P6", spot),
        PtFault::P7(spot) => refused_at(alloc, b"P7", spot),
        PtFault::N1(spot) => refused_at(alloc, b"N1", spot),
        PtFault::N2(spot) => refused_at(alloc, b"N2", spot),
        PtFault::N3(spot) => refused_at(alloc, b"N3", spot),
        PtFault::N4(spot) => refused_at(alloc, b"N4", spot),
        PtFault::N5(spot) => refused_at(alloc, b"N5", spot),
        PtFault::NoMemory(no_memory) => Stopped::NoMemory(no_memory),
    }
}

// The weighted net that a text spells.
fn weighted_of(alloc: Global, bytes: &[u8]) -> Result<Weighted, Stopped>
    ensures spells { IfOk result (λ net. Spells bytes.now net) }
    ensures weighted { IfOk result IsWeighted }
    ensures unrefused { IfOk result (λ net. IsUnrefused bytes.now) }
    ensures refused { IfErr result (Stops (RefusesWeighted bytes.now)) }
{
    match read_pt(alloc, bytes) {
        Ok(net) => Ok(net),
        Err(why) => Err(refused_text(alloc, why)),
    }
}

/// What `pt` comes to on the text of a weighted net.
pub fn pt(alloc: Global, bytes: &[u8]) -> Result<Answer, Stopped>
    ensures { Concludes (λ a. RefusesWeighted bytes.now a ⊎ TranslatesTo bytes.now a) result }
{
    translations_are_accepted();
    translations_have_their_length();
    let net = weighted_of(alloc, bytes)?;
    let plain = translate(alloc, &net)?;
    let text = print_system(alloc, &plain)?;
    Ok(done(alloc, text))
}
