//! Kinds and constants: what is broken in them is reported.
ghost use Rattle.std.specs.Prelude.{◌≡◌, IsTrue, map, flat_map};
ghost use Rattle.std.specs.List.{list_all};
ghost use Rattle.rn_declared.specs.Faults.{first_from};
ghost use Rattle.rn_declared.specs.Declarations.{kind_part, const_part, parts_faults, fits, all_fit};

use crate::first::First;
use crate::located::tell_past;
use crate::pattern::Pattern;
use rn_model::limits::MOST_PARTS;
use rn_net::{PConst, PConstForm, PKind, PKindForm};

/// Reports what is broken in a kind.
#[cycle(kind)]
pub(crate) fn see_kind(kind: &PKind, first: &mut First)
    ensures { first.new.fault ≡ first_from first.old.fault (kind_part kind.now).faults }
{
    match &kind.form {
        PKindForm::Tuple(parts) => see_kinds(parts.as_slice(), first),
        PKindForm::List(part) => see_kind(part.get(), first),
        _ => {}
    }
}

/// Reports what is broken in the parts of a tuple kind or the arguments of a channel.
#[cycle(kind)]
pub(crate) fn see_kinds(kinds: &[PKind], first: &mut First)
    ensures { first.new.fault ≡ first_from first.old.fault (parts_faults (map kind_part kinds.now)) }
{
    for kind in kinds {
        see_kind(kind, first);
    }
    tell_past(kinds, MOST_PARTS, first);
}

/// Whether two kinds are the same, at the same spots. Of two declarations in a text they never are.
#[cycle(same)]
pub(crate) fn same(a: &PKind, b: &PKind) -> bool
    ensures { IsTrue result → a.now ≡ b.now }
{
    if a.spot.line != b.spot.line || a.spot.column != b.spot.column {
        return false;
    }
    match &a.form {
        PKindForm::Int => matches!(&b.form, PKindForm::Int),
        PKindForm::Text => matches!(&b.form, PKindForm::Text),
        PKindForm::Tuple(parts) => match &b.form {
            PKindForm::Tuple(others) => all_same(parts.as_slice(), others.as_slice()),
            _ => false,
        },
        PKindForm::List(part) => match &b.form {
            PKindForm::List(other) => same(part.get(), other.get()),
            _ => false,
        },
        PKindForm::Net => matches!(&b.form, PKindForm::Net),
    }
}

#[cycle(same)]
fn all_same(parts: &[PKind], others: &[PKind]) -> bool
    ensures { IsTrue result → parts.now ≡ others.now }
{
    if parts.len() != others.len() {
        return false;
    }
    for i in 0..parts.len() {
        if !same(&parts[i], &others[i]) {
            return false;
        }
    }
    true
}

/// Reports what is broken in a constant.
#[cycle(constant)]
pub(crate) fn see_const(constant: &PConst, first: &mut First)
    ensures { first.new.fault ≡ first_from first.old.fault (const_part constant.now).faults }
{
    match &constant.form {
        PConstForm::Tuple(parts) => see_const_parts(parts.as_slice(), first),
        PConstForm::List(parts) => see_consts(parts.as_slice(), first),
        _ => {}
    }
}

#[cycle(constant)]
fn see_const_parts(parts: &[PConst], first: &mut First)
    ensures { first.new.fault ≡ first_from first.old.fault (parts_faults (map const_part parts.now)) }
{
    for part in parts {
        see_const(part, first);
    }
    tell_past(parts, MOST_PARTS, first);
}

#[cycle(constant)]
fn see_consts(parts: &[PConst], first: &mut First)
    ensures { first.new.fault ≡ first_from first.old.fault
        (flat_map (λ part. part.faults) (map const_part parts.now)) }
{
    for part in parts {
        see_const(part, first);
    }
}

/// Whether a constant has the kind of a pattern.
#[cycle(fits)]
pub(crate) fn fits(constant: &PConst, pattern: &Pattern) -> bool
    ensures { result ≡ fits constant.now pattern.now }
{
    match &constant.form {
        PConstForm::Int(_) => matches!(pattern, Pattern::Int),
        PConstForm::Text(_) => matches!(pattern, Pattern::Text),
        PConstForm::Tuple(parts) => match pattern {
            Pattern::Tuple(patterns) => all_fit(parts.as_slice(), patterns.as_slice()),
            _ => false,
        },
        PConstForm::List(parts) => match pattern {
            Pattern::List(part) => each_fits(parts.as_slice(), part.get()),
            _ => false,
        },
    }
}

#[cycle(fits)]
#[tactic(auto, using(crate::proofs::KindLemmas::all_fit_lengths))]
fn all_fit(parts: &[PConst], patterns: &[Pattern]) -> bool
    ensures { result ≡ all_fit (map fits parts.now) patterns.now }
{
    if parts.len() != patterns.len() {
        return false;
    }
    for i in 0..parts.len() {
        if !fits(&parts[i], &patterns[i]) {
            return false;
        }
    }
    true
}

#[cycle(fits)]
fn each_fits(parts: &[PConst], pattern: &Pattern) -> bool
    ensures { result ≡ list_all (λ test. test pattern.now) (map fits parts.now) }
{
    for part in parts {
        if !fits(part, pattern) {
            return false;
        }
    }
    true
}
