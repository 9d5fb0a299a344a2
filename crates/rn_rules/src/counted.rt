//! How many tokens an arc puts: where a place with a capacity can't know it is reported.
ghost use Rattle.std.specs.Prelude.{◌≡◌, ◌&&◌, map, is_some};
ghost use Rattle.std.specs.List.{list_any};
ghost use Rattle.rn_declared.specs.Faults.{first_from};
ghost use Rattle.rn_declared.specs.link.Tables.{found_in};
ghost use Rattle.rn_rules.specs.Counted.{holds_name, is_flex_output, counted_faults};

use rn_declared::{First, NameTable, Rule};
use rn_inscript::{PExpr, PForm};
use rn_model::ArcKind;

/// Whether an expression holds a variable that some action sets.
#[cycle(holds)]
fn holds_set(expr: &PExpr, setters: &NameTable) -> bool
    ensures { result ≡ holds_name expr.now (λ name. is_some (found_in setters.now name)) }
{
    match &expr.form {
        PForm::Name(name) => setters.number(name).is_some(),
        PForm::Tuple(parts) => any_holds_set(parts.as_slice(), setters),
        PForm::List(elements) => any_holds_set(elements.as_slice(), setters),
        PForm::Cons(elements, tail) => {
            any_holds_set(elements.as_slice(), setters) || holds_set(tail.get(), setters)
        }
        PForm::Neg(a) => holds_set(a.get(), setters),
        PForm::Op(_, a, b) => holds_set(a.get(), setters) || holds_set(b.get(), setters),
        _ => false,
    }
}

/// Whether one of these expressions does.
#[cycle(holds)]
fn any_holds_set(exprs: &[PExpr], setters: &NameTable) -> bool
    ensures { result ≡ list_any (λ holds. holds (λ name. is_some (found_in setters.now name)))
        (map holds_name exprs.now) }
{
    for expr in exprs {
        if holds_set(expr, setters) {
            return true;
        }
    }
    false
}

/// Whether an arc puts the elements of a list.
pub(crate) fn is_flex_output(kind: ArcKind) -> bool
    ensures { result ≡ is_flex_output kind }
{
    matches!(kind, ArcKind::FlexOutput)
}

/// Whether an arc puts the elements of a list that an action gives, to a place with a capacity.
fn is_uncounted(kind: ArcKind, capped: bool, e: &PExpr, setters: &NameTable) -> bool
    ensures { result ≡ (is_flex_output kind && capped
        && holds_name e.now (λ name. is_some (found_in setters.now name))) }
{
    is_flex_output(kind) && capped && holds_set(e, setters)
}

/// Reports an arc that puts the elements of a list that an action gives, where its place has a
/// capacity.
pub(crate) fn see_counted(
    kind: ArcKind,
    capped: bool,
    inscription: &Option<PExpr>,
    setters: &NameTable,
    first: &mut First,
)
    ensures { first.new.fault ≡ first_from first.old.fault
        (counted_faults kind capped inscription.now (λ name. is_some (found_in setters.now name))) }
{
    match inscription {
        Some(e) => {
            let uncounted = is_uncounted(kind, capped, e, setters);
            first.tell_if(uncounted, Rule::Counted, e.spot);
        }
        None => {}
    }
}
