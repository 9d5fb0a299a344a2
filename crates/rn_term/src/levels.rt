//! Levels of ids, by which most looking for a variable is answered without a walk.
//!
//! A level is at least as high beside what a term is built of, and beside what a variable was bound
//! to, as beside these. So a variable doesn't occur in a term with a higher level.
ghost use Rattle.std.specs.Prelude.{◌≡◌, ◌<◌, ◌≤◌, ◌⊎◌, ◌++◌, ℕ, length, IfOk, IsTrue};
ghost use Rattle.std.specs.Prelude.{false, option_to_list};
ghost use Rattle.rn_term.specs.Assignments.{Keeps};
ghost use Rattle.rn_term.specs.link.Kept.{AreLevels, AreLinks, IsFlagged, level_of};

use crate::flags::is_flagged;
use crate::free_variables::push_parts;
use crate::term::Term;
use rn_value::NoMemory;

/// The level of an id, 0 where none was noted.
pub(crate) fn level(levels: &Vec<usize>, id: usize) -> usize
    ensures { result ≡ level_of levels.now.items id }
{
    if id < levels.len() { levels[id] } else { 0 }
}

/// Raises the levels of an id and of all that occurs in it, so that a variable may be bound to it.
///
/// What is built of others comes above the variable, so it isn't gone through again for a variable
/// with that level or a lower one. Where memory runs out all levels are forgotten, which costs later
/// walks and changes no answer.
pub(crate) fn raise(
    terms: &Vec<Term>,
    notes: &Vec<(usize, usize)>,
    links: &Vec<Option<usize>>,
    flags: &Vec<bool>,
    levels: &mut Vec<usize>,
    rest: &mut Vec<usize>,
    var: usize,
    to: usize,
)
    requires kept { Keeps (record { terms = terms.now.items; notes = notes.now.items }) }
    requires linked { AreLinks links.now.items notes.now.items }
    requires each { length links.now.items ≡ length terms.now.items }
    requires within { to < length terms.now.items }
    requires few { length levels.old.items ≤ length terms.now.items }
    requires levels { AreLevels levels.old.items flags.now.items
        (record { terms = terms.now.items; notes = notes.now.items }) }
    ensures few { length levels.new.items ≤ length terms.now.items }
    ensures levels { AreLevels levels.new.items flags.now.items
        (record { terms = terms.now.items; notes = notes.now.items }) }
    ensures enough { IsFlagged flags.now.items to
        ⊎ (level_of levels.new.items var ≤ level_of levels.new.items to) }
{
    let level = level_for(terms, levels, var, to);
    if is_high(flags, levels, to, level) {
        return;
    }
    if raise_all(terms, notes, links, flags, levels, rest, var, to, level).is_err() {
        levels.clear();
    }
}

/// Whether an id is flagged, or has this level at least.
fn is_high(flags: &Vec<bool>, levels: &Vec<usize>, id: usize, floor: usize) -> bool
    ensures high { IsTrue result →
        IsFlagged flags.now.items id ⊎ (floor ≤ level_of levels.now.items id) }
    ensures low { (result ≡ false) → level_of levels.now.items id < floor }
{
    is_flagged(flags, id) || floor <= level(levels, id)
}

/// The level that an id is to have at least, where a variable is bound to it.
fn level_for(terms: &Vec<Term>, levels: &Vec<usize>, var: usize, to: usize) -> usize
    requires within { to < length terms.now.items }
    ensures { level_of levels.now.items var ≤ result }
{
    let low = level(levels, var);
    if low == usize::MAX || matches!(terms[to], Term::Free) {
        low
    } else {
        low + 1
    }
}

/// Raises them one by one. What is left stands on a stack, the next one last.
fn raise_all(
    terms: &Vec<Term>,
    notes: &Vec<(usize, usize)>,
    links: &Vec<Option<usize>>,
    flags: &Vec<bool>,
    levels: &mut Vec<usize>,
    rest: &mut Vec<usize>,
    var: usize,
    to: usize,
    level: usize,
) -> Result<(), NoMemory>
    requires kept { Keeps (record { terms = terms.now.items; notes = notes.now.items }) }
    requires linked { AreLinks links.now.items notes.now.items }
    requires each { length links.now.items ≡ length terms.now.items }
    requires within { to < length terms.now.items }
    requires few { length levels.old.items ≤ length terms.now.items }
    requires low { level_of levels.old.items var ≤ level }
    requires levels { AreLevels levels.old.items flags.now.items
        (record { terms = terms.now.items; notes = notes.now.items }) }
    ensures few { length levels.new.items ≤ length terms.now.items }
    ensures levels { IfOk result (λ _. AreLevels levels.new.items flags.now.items
        (record { terms = terms.now.items; notes = notes.now.items })) }
    ensures enough { IfOk result (λ _. IsFlagged flags.now.items to
        ⊎ (level_of levels.new.items var ≤ level_of levels.new.items to)) }
{
    note_levels(levels, terms.len())?;
    rest.clear();
    rest.push(to)?;
    while let Some(next) = rest.pop() {
        if !is_high(flags, levels, next, level) {
            levels[next] = level;
            push_parts(&terms[next], rest)?;
            push_link(links[next], rest)?;
        }
    }
    Ok(())
}

/// Notes a level for each of so many ids.
fn note_levels(levels: &mut Vec<usize>, size: usize) -> Result<(), NoMemory>
    requires few { length levels.old.items ≤ size }
    ensures same { (id : ℕ) → level_of levels.new.items id ≡ level_of levels.old.items id }
    ensures few { length levels.new.items ≤ size }
    ensures each { IfOk result (λ _. length levels.new.items ≡ size) }
{
    while levels.len() < size {
        levels.push(0)?;
    }
    Ok(())
}

/// Appends the id to which a variable was bound.
fn push_link(link: Option<usize>, rest: &mut Vec<usize>) -> Result<(), NoMemory>
    ensures pushed { IfOk result (λ _. rest.new.items ≡ rest.old.items ++ option_to_list link) }
{
    if let Some(to) = link {
        rest.push(to)?;
    }
    Ok(())
}
