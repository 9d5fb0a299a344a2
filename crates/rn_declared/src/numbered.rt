//! Patterns that know their number among those of a list.
ghost use Rattle.std.specs.Prelude.{◌≡◌, IsTrue, IfOk, Some, IfSome, map, slice_get, unwrap_or};
ghost use Rattle.rn_declared.specs.Patterns.{share, all_share, both_of, all_both};
ghost use Rattle.rn_declared.specs.declared.pattern.Pattern.TheVariants as Pattern;
ghost use Rattle.rn_declared.specs.link.Forms.{pattern_of_form};

use crate::pattern::Pattern;
use rn_items::Items;
use rn_shared::Shared;
use rn_value::NoMemory;
use std::alloc::Global;
use std::marker::{Brand, Model, PhantomData};

/// A list of patterns, which have their indices there as numbers.
pub trait Numbers {
    ghost use Rattle.std.specs.Prelude.{List};
    ghost use Rattle.rn_declared.specs.declared.pattern.Pattern.{Pattern};

    ghost patterns: { List Pattern };
}

impl Numbers for Brand {
    ghost use Rattle.std.specs.Prelude.{[]};

    ghost patterns = { [] };
}

/// A pattern whose parts may have numbers.
#[cycle(numbered)]
#[derive(Drop)]
pub struct Numbered<N: Numbers> {
    number: Option<usize>,
    form: Form<N>,
    of: PhantomData<N>,
}

#[cycle(numbered)]
#[derive(Drop)]
enum Form<N: Numbers> {
    Any,
    Int,
    Text,
    Tuple(Shared<Items<Numbered<N>>>),
    List(Shared<Numbered<N>>),
    Net,
}

impl<N: Numbers> Model for Numbered<N> {
    ghost use Rattle.std.specs.Prelude.{IfSome, ◌≡◌, Some, slice_get};
    ghost use Rattle.rn_declared.specs.declared.pattern.Pattern.{Pattern};
    ghost use Rattle.rn_declared.specs.contracts.pattern.Pattern as pattern;
    ghost use Rattle.std.specs.Coded.{codes};

    ghost Value = { Pattern };

    ghost coded = { Prim.hlevel (codes, pattern.the_row.coded) };

    ghost use Rattle.rn_declared.specs.link.Forms.{pattern_of_form};

    ghost view = { λ k. pattern_of_form k.form };

    ghost invariant = { λ k. IfSome k.number (λ n. slice_get N.patterns n ≡ Some (pattern_of_form k.form)) };

    ghost use Rattle.rn_declared.specs.link.Sizes.{size_of, size-Tuple, size-List};

    ghost size = { size_of };

    ghost use Rattle.std.proofs.Common.{arith};

    ghost size_decreases = { λ a h. Prim.grind (arith, size-Tuple, size-List) };
}

/// Whether both have the same number, so that they are the same.
fn have_same_number<N: Numbers>(a: &Numbered<N>, b: &Numbered<N>) -> bool
    ensures { IsTrue result → a.now ≡ b.now }
{
    match (a.number, b.number) {
        (Some(number), Some(other)) => number == other,
        _ => false,
    }
}

#[cycle(share)]
#[tactic(auto, using(crate::proofs::SamePatterns::sharing))]
pub fn share<N: Numbers>(a: &Numbered<N>, b: &Numbered<N>) -> bool
    ensures { result ≡ share a.now b.now }
{
    if have_same_number(a, b) {
        return true;
    }
    match &a.form {
        Form::Any => true,
        Form::Int => matches!(&b.form, Form::Int | Form::Any),
        Form::Text => matches!(&b.form, Form::Text | Form::Any),
        Form::Tuple(parts) => match &b.form {
            Form::Tuple(others) => all_share(parts.as_slice(), others.as_slice()),
            Form::Any => true,
            _ => false,
        },
        Form::List(part) => match &b.form {
            Form::List(other) => share(part.get(), other.get()),
            Form::Any => true,
            _ => false,
        },
        Form::Net => matches!(&b.form, Form::Net | Form::Any),
    }
}

#[cycle(share)]
#[tactic(auto, using(crate::proofs::PatternLemmas::all_share_lengths))]
fn all_share<N: Numbers>(parts: &[Numbered<N>], others: &[Numbered<N>]) -> bool
    ensures { result ≡ all_share (map share parts.now) others.now }
{
    if parts.len() != others.len() {
        return false;
    }
    for i in 0..parts.len() {
        if !share(&parts[i], &others[i]) {
            return false;
        }
    }
    true
}

/// A pattern of this form, without number.
fn unnumbered<N: Numbers>(form: Form<N>) -> Numbered<N>
    ensures { result ≡ pattern_of_form form }
{
    Numbered {
        number: None,
        form,
        of: PhantomData,
    }
}

impl<N: Numbers> Numbered<N> {
    /// The pattern of all kinds.
    pub fn any() -> Numbered<N>
        ensures { result ≡ Pattern.Any }
    {
        unnumbered(Form::Any)
    }

    /// The pattern of whole numbers.
    pub fn int() -> Numbered<N>
        ensures { result ≡ Pattern.Int }
    {
        unnumbered(Form::Int)
    }

    /// The pattern of texts.
    pub fn text() -> Numbered<N>
        ensures { result ≡ Pattern.Text }
    {
        unnumbered(Form::Text)
    }

    /// The pattern of nets.
    pub fn net() -> Numbered<N>
        ensures { result ≡ Pattern.Net }
    {
        unnumbered(Form::Net)
    }

    /// The pattern of the tuples of these parts.
    pub fn tuple(parts: Shared<Items<Numbered<N>>>) -> Numbered<N>
        ensures { result ≡ Pattern.Tuple parts }
    {
        unnumbered(Form::Tuple(parts))
    }

    /// The pattern of the lists of this part.
    pub fn list(part: Shared<Numbered<N>>) -> Numbered<N>
        ensures { result ≡ Pattern.List part }
    {
        unnumbered(Form::List(part))
    }
}

fn copy_form<N: Numbers>(form: &Form<N>) -> Result<Form<N>, NoMemory>
    ensures { IfOk result (λ f. f ≡ form.now) }
{
    match form {
        Form::Any => Ok(Form::Any),
        Form::Int => Ok(Form::Int),
        Form::Text => Ok(Form::Text),
        Form::Tuple(parts) => Ok(Form::Tuple(parts.share()?)),
        Form::List(part) => Ok(Form::List(part.share()?)),
        Form::Net => Ok(Form::Net),
    }
}

/// The same pattern with the same number, which shares its parts with this one.
pub fn copy<N: Numbers>(pattern: &Numbered<N>) -> Result<Numbered<N>, NoMemory>
    ensures { IfOk result (λ p. p ≡ pattern.now) }
{
    Ok(Numbered {
        number: pattern.number,
        form: copy_form(&pattern.form)?,
        of: PhantomData,
    })
}

/// The pattern at an index, or `Any` past the end.
fn pattern_at<N: Numbers>(
    patterns: &Items<Numbered<N>>,
    index: usize,
) -> Result<Numbered<N>, NoMemory>
    ensures { IfOk result (λ p. p ≡ unwrap_or (slice_get patterns.now index) Pattern.Any) }
{
    match patterns.get(index) {
        Some(pattern) => Ok(copy(pattern)?),
        None => Ok(Numbered::any()),
    }
}

/// The pattern of the kinds that come of both, where they share some. It shares with the first all
/// in which it is the same, and with the second what stands there for an `Any`.
#[cycle(both)]
#[tactic(auto, using(crate::proofs::CommonPatterns::both))]
pub fn both_of<N: Numbers>(
    alloc: Global,
    a: &Numbered<N>,
    b: &Numbered<N>,
) -> Result<Numbered<N>, NoMemory>
    ensures { IfOk result (λ p. p ≡ both_of a.now b.now) }
{
    if have_same_number(a, b) {
        return Ok(copy(a)?);
    }
    match &a.form {
        Form::Any => Ok(copy(b)?),
        Form::Tuple(parts) => match &b.form {
            Form::Tuple(others) => Ok(tuple_both(alloc, parts.as_slice(), others.get())?),
            _ => Ok(copy(a)?),
        },
        Form::List(part) => match &b.form {
            Form::List(other) => {
                let both = both_of(alloc, part.get(), other.get())?;
                Ok(Numbered::list(Shared::new(alloc, both)?))
            }
            _ => Ok(copy(a)?),
        },
        _ => Ok(copy(a)?),
    }
}

/// The tuple of what these parts have in common with others.
#[cycle(both)]
fn tuple_both<N: Numbers>(
    alloc: Global,
    parts: &[Numbered<N>],
    others: &Items<Numbered<N>>,
) -> Result<Numbered<N>, NoMemory>
    ensures { IfOk result (λ p. p ≡ Pattern.Tuple (all_both (map both_of parts.now) others.now)) }
{
    let mut patterns = Vec::with_capacity(alloc, parts.len())?;
    for i in 0..parts.len() {
        let other = pattern_at(others, i)?;
        patterns.push(both_of(alloc, &parts[i], &other)?)?;
    }
    Ok(Numbered::tuple(Shared::new(alloc, Items::from_vec(patterns))?))
}

/// Whether a pattern is the same as another, found part by part.
#[cycle(is)]
pub(crate) fn is_pattern<N: Numbers>(a: &Numbered<N>, b: &Pattern) -> bool
    ensures { IsTrue result → a.now ≡ b.now }
{
    match &a.form {
        Form::Any => matches!(b, Pattern::Any),
        Form::Int => matches!(b, Pattern::Int),
        Form::Text => matches!(b, Pattern::Text),
        Form::Tuple(parts) => match b {
            Pattern::Tuple(others) => are_patterns(parts.as_slice(), others.as_slice()),
            _ => false,
        },
        Form::List(part) => match b {
            Pattern::List(other) => is_pattern(part.get(), other.get()),
            _ => false,
        },
        Form::Net => matches!(b, Pattern::Net),
    }
}

#[cycle(is)]
fn are_patterns<N: Numbers>(parts: &[Numbered<N>], others: &[Pattern]) -> bool
    ensures { IsTrue result → parts.now ≡ others.now }
{
    if parts.len() != others.len() {
        return false;
    }
    for i in 0..parts.len() {
        if !is_pattern(&parts[i], &others[i]) {
            return false;
        }
    }
    true
}

impl<N: Numbers> Numbered<N> {
    /// Its number, if it has one.
    pub(crate) fn number(&self) -> Option<usize> {
        self.number
    }
}

/// A pattern with this number, if it has it among these.
pub(crate) fn with_number<N: Numbers>(
    pattern: Numbered<N>,
    number: usize,
    patterns: &[Pattern],
) -> Numbered<N>
    requires { patterns.now ≡ N.patterns }
    ensures { result ≡ pattern }
{
    let known = match patterns.get(number) {
        Some(other) => is_pattern(&pattern, other),
        None => false,
    };
    if !known {
        return pattern;
    }
    let Numbered { form, .. } = pattern;
    Numbered {
        number: Some(number),
        form,
        of: PhantomData,
    }
}
