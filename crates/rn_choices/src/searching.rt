//! The search: steps forward, going back to the newest choice, and its public calls.

ghost use Rattle.std.specs.Prelude.{◌≡◌, ◌+◌, ◌<◌, ◌≤◌, ◌⊎◌, ◌↔◌, [], take};
ghost use Rattle.std.specs.Prelude.{true, false, IsTrue, IfOk, IfSome, IfNone, IsSome, IsNone};
ghost use Rattle.std.specs.Prelude.{MatchOption, Some, Contains, AllPairs, ◌≢◌};
ghost use Rattle.rn_choices.specs.Waiting.{WaitsAt, Waits, IsLeft, WasMet, Stand, StandBelow};
ghost use Rattle.rn_choices.specs.Waiting.{Made, weight, load};
ghost use Rattle.rn_choices.specs.Steps.{Goes, Shrinks};
ghost use Rattle.rn_choices.specs.Leading.{IsOnly, NoneLeads, Says};
ghost use Rattle.rn_choices.specs.declared.next.Next.TheVariants.{Forced, Choose};

use crate::asked::{Asked, ToTheEnd};
use crate::choice::{Choice, behind, start_at, turn_after, turn_round};
use crate::grows::Grows;
use crate::next::Next;
use crate::stack::Choices;
use crate::step::Step;
use rn_items::NoMemory;
use std::alloc::Global;

// Makes the first decision that may be made, of the alternatives of the choice that are left, and
// returns which turn that was. `None`: none may be made, and the decisions before the choice stand.
// It counts those that it tries.
fn try_choice<G: Grows>(
    problem: &G::Problem,
    state: &mut G,
    choice: Choice<G::Site>,
    tried: &mut u64,
) -> Result<Option<usize>, NoMemory>
    requires stands { G.stands problem.now state.old }
    requires met { WasMet (G.allows problem.now) (G.decisions problem.now state.old) choice }
    ensures stands { IfOk result (λ _. G.stands problem.now state.new) }
    ensures made { IfOk result (λ made. Made (G.offers problem.now) (take choice.mark
        (G.decisions problem.now state.old)) choice made (G.decisions problem.now state.new)) }
    ensures room { IfOk result (λ made. IsSome made →
        G.room problem.now (G.decisions problem.now state.new) < G.room problem.now
        (take choice.mark (G.decisions problem.now state.old))) }
    ensures left { IfOk result (λ made. (s : G.Solution)
        → WaitsAt (G.leads problem.now) (G.offers problem.now) (take choice.mark
        (G.decisions problem.now state.old)) choice s
        ↔ MatchOption made ⊥ (λ turn. G.leads problem.now (G.decisions problem.now state.new) s
        ⊎ WaitsAt (G.leads problem.now) (G.offers problem.now) (take choice.mark
        (G.decisions problem.now state.old)) (record choice { tried = turn + 1 }) s)) }
{
    let mut turn = choice.tried;
    while turn < choice.of {
        *tried = tried.wrapping_add(1);
        state.undo(problem, choice.mark);
        let alternative = turn_round(choice.first, choice.of, turn);
        let vain = state.vain_from(problem, choice.site, alternative);
        if vain > 0 {
            turn = turn_after(turn, vain, alternative, choice.of);
            continue;
        }
        if state.push(problem, choice.site, alternative)? {
            return Ok(Some(turn));
        }
        turn += 1;
    }
    state.undo(problem, choice.mark);
    Ok(None)
}

// Goes back to the newest choice of which another decision may be made, and makes it. `false`:
// there is none, and no choice is left.
fn go_back<G: Grows>(
    problem: &G::Problem,
    state: &mut G,
    choices: &mut Choices<G::Site>,
) -> Result<bool, NoMemory>
    requires stands { G.stands problem.now state.old }
    requires set { StandBelow (G.offers problem.now) (G.allows problem.now)
        (G.decisions problem.now state.old) choices.old }
    ensures stands { IfOk result (λ _. G.stands problem.now state.new) }
    ensures set { IfOk result (λ _. Stand (G.offers problem.now) (G.allows problem.now)
        (G.decisions problem.now state.new) choices.new) }
    ensures left { IfOk result (λ live. (s : G.Solution)
        → Waits (G.leads problem.now) (G.offers problem.now)
        (G.decisions problem.now state.old) choices.old s
        ↔ IsLeft (G.leads problem.now) (G.offers problem.now) live
        (G.decisions problem.now state.new) choices.new s) }
    ensures over { IfOk result (λ live. live ≡ false → choices.new ≡ []) }
    ensures load { IfOk result (λ live. IsTrue live →
        load (G.room problem.now) (G.decisions problem.now state.new) choices.new
        ≤ weight (G.room problem.now) (G.decisions problem.now state.old) choices.old) }
{
    while let Some(choice) = choices.pop() {
        let mut tried = 0;
        let made = try_choice(problem, state, choice, &mut tried)?;
        choices.spend(tried);
        if let Some(turn) = made {
            choices.push(Choice {
                tried: turn + 1,
                ..choice
            })?;
            return Ok(true);
        }
    }
    Ok(false)
}

// Goes back, as a step.
fn back<G: Grows>(
    problem: &G::Problem,
    state: &mut G,
    choices: &mut Choices<G::Site>,
) -> Result<Step<G::Solution>, NoMemory>
    requires stands { G.stands problem.now state.old }
    requires set { StandBelow (G.offers problem.now) (G.allows problem.now)
        (G.decisions problem.now state.old) choices.old }
    requires none { NoneLeads (G.leads problem.now) (G.decisions problem.now state.old) }
    ensures stands { IfOk result (λ _. G.stands problem.now state.new) }
    ensures goes { IfOk result (λ step. Goes (G.leads problem.now) (G.offers problem.now)
        (G.allows problem.now)
        (G.decisions problem.now state.old) choices.old step
        (G.decisions problem.now state.new) choices.new) }
    ensures shrinks { IfOk result (λ step. Shrinks (G.room problem.now)
        (G.decisions problem.now state.old) choices.old step
        (G.decisions problem.now state.new) choices.new) }
{
    if go_back(problem, state, choices)? {
        Ok(Step::Moved)
    } else {
        Ok(Step::Over)
    }
}

// Makes a decision to which it is forced, or goes back.
fn forced<G: Grows>(
    problem: &G::Problem,
    state: &mut G,
    choices: &mut Choices<G::Site>,
    site: G::Site,
) -> Result<Step<G::Solution>, NoMemory>
    requires stands { G.stands problem.now state.old }
    requires set { Stand (G.offers problem.now) (G.allows problem.now)
        (G.decisions problem.now state.old) choices.old }
    requires forced { Says (G.leads problem.now) (G.offers problem.now) (G.allows problem.now)
        (G.ends problem.now state.old) (G.decisions problem.now state.old) (Forced site) }
    ensures stands { IfOk result (λ _. G.stands problem.now state.new) }
    ensures goes { IfOk result (λ step. Goes (G.leads problem.now) (G.offers problem.now)
        (G.allows problem.now)
        (G.decisions problem.now state.old) choices.old step
        (G.decisions problem.now state.new) choices.new) }
    ensures shrinks { IfOk result (λ step. Shrinks (G.room problem.now)
        (G.decisions problem.now state.old) choices.old step
        (G.decisions problem.now state.new) choices.new) }
{
    let mark = state.count(problem);
    if state.push(problem, site, 0)? {
        return Ok(Step::Moved);
    }
    state.undo(problem, mark);
    back(problem, state, choices)
}

// Where a choice begins that would begin there, and how far the next one begins behind.
fn lagging<S: Copy>(choices: &Choices<S>, start: usize, of: usize) -> (usize, u64)
    requires { start ≤ of }
    ensures { result.0 ≤ of }
{
    match choices.newest() {
        None => (start, choices.lag()),
        Some(before) => behind(start, of, before.lag),
    }
}

// Notes a choice, and makes the first decision that may be made there, or goes back.
fn choose<G: Grows>(
    problem: &G::Problem,
    state: &mut G,
    choices: &mut Choices<G::Site>,
    site: G::Site,
    of: usize,
    start: usize,
) -> Result<Step<G::Solution>, NoMemory>
    requires stands { G.stands problem.now state.old }
    requires set { Stand (G.offers problem.now) (G.allows problem.now)
        (G.decisions problem.now state.old) choices.old }
    requires choose { Says (G.leads problem.now) (G.offers problem.now) (G.allows problem.now)
        (G.ends problem.now state.old) (G.decisions problem.now state.old) (Choose site of start) }
    ensures stands { IfOk result (λ _. G.stands problem.now state.new) }
    ensures goes { IfOk result (λ step. Goes (G.leads problem.now) (G.offers problem.now)
        (G.allows problem.now)
        (G.decisions problem.now state.old) choices.old step
        (G.decisions problem.now state.new) choices.new) }
    ensures shrinks { IfOk result (λ step. Shrinks (G.room problem.now)
        (G.decisions problem.now state.old) choices.old step
        (G.decisions problem.now state.new) choices.new) }
{
    let mark = state.count(problem);
    let (first, lag) = lagging(choices, start_at(start, of), of);
    choices.push(Choice {
        mark,
        site,
        of,
        first,
        tried: 0,
        lag,
    })?;
    if go_back(problem, state, choices)? {
        Ok(Step::Moved)
    } else {
        Ok(Step::Over)
    }
}

// Takes a step at decisions that are live.
fn step<G: Grows>(
    alloc: Global,
    problem: &G::Problem,
    state: &mut G,
    choices: &mut Choices<G::Site>,
) -> Result<Step<G::Solution>, NoMemory>
    requires stands { G.stands problem.now state.old }
    requires set { Stand (G.offers problem.now) (G.allows problem.now)
        (G.decisions problem.now state.old) choices.old }
    ensures stands { IfOk result (λ _. G.stands problem.now state.new) }
    ensures goes { IfOk result (λ step. Goes (G.leads problem.now) (G.offers problem.now)
        (G.allows problem.now)
        (G.decisions problem.now state.old) choices.old step
        (G.decisions problem.now state.new) choices.new) }
    ensures shrinks { IfOk result (λ step. Shrinks (G.room problem.now)
        (G.decisions problem.now state.old) choices.old step
        (G.decisions problem.now state.new) choices.new) }
{
    match state.next(problem)? {
        Next::Done => match state.solution(alloc, problem)? {
            Some(solution) => Ok(Step::Found(solution)),
            None => back(problem, state, choices),
        },
        Next::Stuck => back(problem, state, choices),
        Next::Forced(site) => forced(problem, state, choices, site),
        Next::Choose(site, of, start) => choose(problem, state, choices, site, of, start),
    }
}

// Goes on, from decisions that are live, to the next solution. Before each step it asks whether it
// goes on.
fn next_found<G: Grows, A: Asked>(
    alloc: Global,
    problem: &G::Problem,
    state: &mut G,
    choices: &mut Choices<G::Site>,
    asked: &A,
) -> Result<Option<G::Solution>, A::Halt>
    requires stands { G.stands problem.now state.old }
    requires set { Stand (G.offers problem.now) (G.allows problem.now)
        (G.decisions problem.now state.old) choices.old }
    ensures stands { IfOk result (λ _. G.stands problem.now state.new) }
    ensures set { IfOk result (λ found. IsSome found →
        Stand (G.offers problem.now) (G.allows problem.now)
        (G.decisions problem.now state.new) choices.new) }
    ensures load { IfOk result (λ found. IsSome found →
        load (G.room problem.now) (G.decisions problem.now state.new) choices.new
        ≤ load (G.room problem.now) (G.decisions problem.now state.old) choices.old) }
    ensures left { IfOk result (λ found. IsSome found → (s : G.Solution)
        → IsLeft (G.leads problem.now) (G.offers problem.now) true
        (G.decisions problem.now state.old) choices.old s
        ↔ IsLeft (G.leads problem.now) (G.offers problem.now) true
        (G.decisions problem.now state.new) choices.new s) }
    ensures only { IfOk result (λ found. IfSome found (λ f. IsOnly (G.leads problem.now
        (G.decisions problem.now state.new)) (Some f))) }
    ensures over { IfOk result (λ found. IfNone found ((s : G.Solution)
        → IsLeft (G.leads problem.now) (G.offers problem.now) true
        (G.decisions problem.now state.old) choices.old s → ⊥)) }
{
    'steps: loop {
        asked.go_on(choices.spent())?;
        choices.spend(1);
        match step(alloc, problem, state, choices)? {
            Step::Found(solution) => return Ok(Some(solution)),
            Step::Over => return Ok(None),
            Step::Moved => {}
        }
    }
}

/// A solution, or `None` exactly where there is none, as `find`. Before each step it asks whether it
/// goes on; where it doesn't, that says nothing of solutions.
pub fn find_while<G: Grows, A: Asked>(
    alloc: Global,
    problem: &G::Problem,
    state: &mut G,
    choices: &mut Choices<G::Site>,
    asked: &A,
) -> Result<Option<G::Solution>, A::Halt>
    requires { G.stands problem.now state.old }
    ensures found { IfOk result (λ found. IfSome found (λ s. G.leads problem.now [] s)) }
    ensures none { IfOk result (λ found. IsNone found ↔ NoneLeads (G.leads problem.now) []) }
    ensures stands { IfOk result (λ _. G.stands problem.now state.new) }
{
    state.undo(problem, 0);
    choices.clear();
    next_found(alloc, problem, state, choices, asked)
}

/// A solution, or `None` exactly where there is none. Decisions made before are taken back first.
/// `choices` only lends its room.
pub fn find<G: Grows>(
    alloc: Global,
    problem: &G::Problem,
    state: &mut G,
    choices: &mut Choices<G::Site>,
) -> Result<Option<G::Solution>, NoMemory>
    requires { G.stands problem.now state.old }
    ensures found { IfOk result (λ found. IfSome found (λ s. G.leads problem.now [] s)) }
    ensures none { IfOk result (λ found. IsNone found ↔ NoneLeads (G.leads problem.now) []) }
    ensures stands { IfOk result (λ _. G.stands problem.now state.new) }
{
    find_while(alloc, problem, state, choices, &ToTheEnd)
}

/// All solutions, each once, in no stated order. Decisions made before are taken back first.
/// `choices` only lends its room.
pub fn all<G: Grows>(
    alloc: Global,
    problem: &G::Problem,
    state: &mut G,
    choices: &mut Choices<G::Site>,
) -> Result<Vec<G::Solution>, NoMemory>
    requires { G.stands problem.now state.old }
    ensures all { IfOk result (λ found. (s : G.Solution)
        → Contains found.items s ↔ G.leads problem.now [] s) }
    ensures once { IfOk result (λ found. AllPairs (λ s t. s ≢ t) found.items) }
    ensures stands { IfOk result (λ _. G.stands problem.now state.new) }
{
    state.undo(problem, 0);
    choices.clear();
    let mut found = Vec::new(alloc);
    'solutions: while let Some(solution) = next_found(alloc, problem, state, choices, &ToTheEnd)? {
        found.push(solution)?;
        if !go_back(problem, state, choices)? {
            return Ok(found);
        }
    }
    Ok(found)
}
