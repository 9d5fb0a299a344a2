//! Which variables of a net occur in a transition.
ghost use Rattle.std.specs.Prelude.{◌≡◌, ◌<◌, ℕ, true, false, not, ◌&&◌, IfOk, OnOk, filter, length};
ghost use Rattle.std.specs.Prelude.{flat_map};
ghost use Rattle.std.specs.Prelude.{slice_index_or as get_or};
ghost use Rattle.std.specs.List.{range_with_len};
ghost use Rattle.rn_model.specs.Good.{occurring, set_var};
ghost use Rattle.rn_occurring.specs.TransitionVars.{is_among, with_vars};

use crate::occurring::{put_occurring, put_set_vars};
use rn_items::Items;
use rn_model::{Nums, Transition};
use rn_value::NoMemory;
use std::alloc::Global;

/// Of each number below this one, whether it is among these.
fn marks_of(alloc: Global, numbers: &[u32], count: u32) -> Result<Vec<bool>, NoMemory>
    ensures { IfOk result (λ marks. length marks.items ≡ count
        × ((x : ℕ) → x < count → get_or marks.items x false ≡ is_among numbers.now x)) }
{
    let mut marks = vec![in alloc; false; count as usize]?;
    for number in numbers {
        let at = *number as usize;
        if at < marks.len() {
            marks[at] = true;
        }
    }
    Ok(marks)
}

/// The numbers below this one that are marked.
#[tactic(auto, using(crate::proofs::MarkLemmas::passing_more))]
fn marked(alloc: Global, marks: &[bool], count: u32) -> Result<Nums, NoMemory>
    requires { length marks.now ≡ count }
    ensures { IfOk result (λ made. made
        ≡ filter (λ x. get_or marks.now x false) (range_with_len 0 count)) }
{
    let mut made = Vec::new(alloc);
    for x in 0..count {
        if marks[x as usize] {
            made.push(x)?;
        }
    }
    Ok(Items::from_vec(made))
}

/// The numbers below this one that are marked, but for those that are marked here too.
#[tactic(auto, using(crate::proofs::MarkLemmas::passing_more))]
fn marked_alone(alloc: Global, marks: &[bool], here: &[bool], count: u32) -> Result<Nums, NoMemory>
    requires { (length marks.now ≡ count) × (length here.now ≡ count) }
    ensures { IfOk result (λ made. made
        ≡ filter (λ x. get_or marks.now x false && not (get_or here.now x false))
        (range_with_len 0 count)) }
{
    let mut made = Vec::new(alloc);
    for x in 0..count {
        let at = x as usize;
        if marks[at] & !here[at] {
            made.push(x)?;
        }
    }
    Ok(Items::from_vec(made))
}

/// Of each number below this one, whether it is that of a variable that occurs in the transition.
fn occurring_marks(alloc: Global, t: &Transition, count: u32) -> Result<Vec<bool>, NoMemory>
    ensures { IfOk result (λ marks. length marks.items ≡ count
        × ((x : ℕ) → x < count → get_or marks.items x false ≡ is_among (occurring t.now) x)) }
{
    let mut occurring = Vec::new(alloc);
    put_occurring(t, &mut occurring)?;
    Ok(marks_of(alloc, occurring.as_slice(), count)?)
}

/// Of each number below this one, whether it is that of a variable that an action sets.
fn action_marks(alloc: Global, t: &Transition, count: u32) -> Result<Vec<bool>, NoMemory>
    ensures { IfOk result (λ marks. length marks.items ≡ count
        × ((x : ℕ) → x < count →
        get_or marks.items x false ≡ is_among (flat_map set_var t.now.actions) x)) }
{
    let mut set = Vec::new(alloc);
    put_set_vars(t.actions.as_slice(), &mut set)?;
    Ok(marks_of(alloc, set.as_slice(), count)?)
}

/// The variables of a transition, and its action variables, where its net has so many.
fn marked_vars(alloc: Global, t: &Transition, count: u32) -> Result<(Nums, Nums), NoMemory>
    ensures { IfOk result (λ made. record t.now { vars = made.0; action_vars = made.1 }
        ≡ with_vars count t.now) }
{
    let occurs = occurring_marks(alloc, t, count)?;
    let acts = action_marks(alloc, t, count)?;
    let vars = marked_alone(alloc, occurs.as_slice(), acts.as_slice(), count)?;
    let action_vars = marked(alloc, acts.as_slice(), count)?;
    Ok((vars, action_vars))
}

/// Puts the variables of a transition, where its net has so many.
pub fn put_vars(alloc: Global, t: &mut Transition, count: u32) -> Result<(), NoMemory>
    ensures { OnOk result (t.new ≡ with_vars count t.old) }
{
    let (vars, action_vars) = marked_vars(alloc, t, count)?;
    t.vars = vars;
    t.action_vars = action_vars;
    Ok(())
}
