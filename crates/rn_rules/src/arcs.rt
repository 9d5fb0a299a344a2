//! Arcs: what is broken in them is reported.
ghost use Rattle.std.specs.Prelude.{◌≡◌, OnOk, IfOk, option_copied};
ghost use Rattle.rn_declared.specs.Faults.{first_from};
ghost use Rattle.rn_rules.specs.Arcs.{arc_faults, inscribed_faults, asked_of, is_clear, is_variable};
ghost use Rattle.rn_rules.specs.link.Sights.{where_of, misfit_if};
ghost use Rattle.std.specs.Option.{option_map};

use crate::seeing::{fits, see};
use crate::sight::{Here, SeenExpr};
use rn_declared::numbered::copy;
use rn_declared::{First, Numbered, Numbers, Rule};
use rn_inscript::{PExpr, PForm, PName};
use rn_model::ArcKind;
use rn_shared::Shared;
use rn_value::NoMemory;
use std::alloc::Global;

/// The pattern that the inscription of an arc must have at a place with this one.
fn asked<N: Numbers>(
    alloc: Global,
    kind: ArcKind,
    place: &Numbered<N>,
) -> Result<Numbered<N>, NoMemory>
    ensures { IfOk result (λ p. p ≡ asked_of kind place.now) }
{
    let pattern = copy(place)?;
    match kind {
        ArcKind::FlexInput => Ok(Numbered::list(Shared::new(alloc, pattern)?)),
        ArcKind::FlexOutput => Ok(Numbered::list(Shared::new(alloc, pattern)?)),
        ArcKind::Clear => Ok(Numbered::list(Shared::new(alloc, pattern)?)),
        _ => Ok(pattern),
    }
}

fn is_variable(e: &PExpr) -> bool
    ensures { result ≡ is_variable e.now }
{
    matches!(e.form, PForm::Name(_))
}

fn is_clear(kind: ArcKind) -> bool
    ensures { result ≡ is_clear kind }
{
    matches!(kind, ArcKind::Clear)
}

/// Reports an inscription that hasn't the kind that is asked for, where the place is known.
fn tell_misfit<N: Numbers>(
    alloc: Global,
    kind: ArcKind,
    place: Option<&Numbered<N>>,
    sight: &SeenExpr<N>,
    first: &mut First,
) -> Result<(), NoMemory>
    ensures { OnOk result (first.new.fault ≡ first_from first.old.fault
        (misfit_if sight.now (option_map (asked_of kind) (option_copied place.entry)))) }
{
    match place {
        Some(place) => {
            let asked = asked(alloc, kind, place)?;
            fits(sight, &asked, first);
            Ok(())
        }
        None => Ok(()),
    }
}

/// Reports what is broken in the inscription of an arc.
fn see_inscribed<N: Numbers>(
    alloc: Global,
    kind: ArcKind,
    place: Option<&Numbered<N>>,
    e: &PExpr,
    here: &Here<N>,
    first: &mut First,
) -> Result<(), NoMemory>
    ensures { OnOk result (first.new.fault ≡ first_from first.old.fault
        (inscribed_faults kind (option_copied place.entry) e.now (where_of here.now))) }
{
    let sight = see(alloc, e, here, first)?;
    tell_misfit(alloc, kind, place, &sight, first)?;
    let clear = is_clear(kind);
    let variable = is_variable(e);
    first.tell_if(clear & !variable, Rule::Inscription, sight.spot);
    Ok(())
}

/// Reports what is broken in an arc.
pub(crate) fn see_arc<N: Numbers>(
    alloc: Global,
    kind: ArcKind,
    place: Option<&Numbered<N>>,
    name: &PName,
    inscription: &Option<PExpr>,
    here: &Here<N>,
    first: &mut First,
) -> Result<(), NoMemory>
    ensures { OnOk result (first.new.fault ≡ first_from first.old.fault
        (arc_faults kind (option_copied place.entry) name.now inscription.now (where_of here.now))) }
{
    first.tell_if(place.is_none(), Rule::Known, name.spot);
    match inscription {
        Some(e) => Ok(see_inscribed(alloc, kind, place, e, here, first)?),
        None => {
            first.tell(Rule::Inscription, name.spot);
            Ok(())
        }
    }
}
