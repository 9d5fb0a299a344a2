//! Puzzles, and their solutions by a search over choices.

ghost use Rattle.std.specs.Prelude.{◌≡◌, ◌↔◌, ◌≢◌, ◌<◌, List, ℕ, Any, AllPairs, Contains, IsTrue};
ghost use Rattle.std.specs.Prelude.{IfOk, IfSome, IsNone, length, slice_index};
ghost use Rattle.rn_choices_uses.specs.Puzzles.{IsSolution, Clashes};

use rn_choices::{Asked, Choices, Grows, Next, ToTheEnd};
use rn_items::{Items, NoMemory};
use std::alloc::Global;

/// Two numbers that don't go together: `value` at the cell `one`, and `other_value` at `other`.
#[derive(Clone, Copy, Debug)]
pub struct Clash {
    pub one: usize,
    pub value: usize,
    pub other: usize,
    pub other_value: usize,
}

/// Cells to be filled, each with a number below its size, so that there is no clash.
#[derive(Clone, Copy, Debug)]
pub struct Puzzle<'a> {
    pub sizes: &'a [usize],
    pub clashes: &'a [Clash],
}

/// The first cells of a puzzle, filled.
#[derive(Debug, Drop)]
struct Filling<'a> {
    values: Vec<usize>,
    starts: &'a [usize],
}

// The number to begin with at a cell.
fn start_of(starts: &[usize], cell: usize) -> usize {
    match starts.get(cell) {
        Some(start) => *start,
        None => 0,
    }
}

// Whether this number stands at this cell.
fn has(values: &[usize], cell: usize, value: usize) -> bool
    ensures { IsTrue result ↔ ((cell < length values.now) × (slice_index values.now cell ≡ value)) }
{
    match values.get(cell) {
        Some(found) => *found == value,
        None => false,
    }
}

fn has_clash(clashes: &[Clash], values: &[usize]) -> bool
    ensures { IsTrue result ↔ Any (λ c. Clashes values.now c) clashes.now }
{
    clashes.iter().any(|c| has(values, c.one, c.value) && has(values, c.other, c.other_value))
}

impl<'a> Grows for Filling<'a> {
    ghost use Rattle.std.specs.Prelude.{◌≡◌, ◌<◌, ◌-◌, length, slice_index};
    ghost use Rattle.rn_choices_uses.specs.Puzzles.{Leads, FitIn, leads_shorter, leads_one_way};

    type Problem = Puzzle<'a>;

    type Site = usize;

    type Decision = usize;

    type Solution = Items<usize>;

    ghost decisions = { λ _ f. f.values.items };

    ghost stands = { λ p f. FitIn p.sizes.now f.values.items };

    ghost leads = { λ p ds s. Leads p.sizes.now p.clashes.now ds s };

    ghost offers = { λ p ds cell value. value };

    ghost ends = { λ p f. length f.values.items ≡ length p.sizes.now };

    ghost allows = { λ p ds cell value.
        (length ds < length p.sizes.now) × (value < slice_index p.sizes.now (length ds)) };

    ghost room = { λ p ds. length p.sizes.now - length ds };

    fn count(&self, _problem: &Puzzle<'a>) -> usize {
        self.values.len()
    }

    fn next(&mut self, problem: &Puzzle<'a>) -> Result<Next<usize>, NoMemory> {
        let cell = self.values.len();
        match problem.sizes.get(cell) {
            None => Ok(Next::Done),
            Some(size) => match *size {
                0 => Ok(Next::Stuck),
                1 => Ok(Next::Forced(cell)),
                of => Ok(Next::Choose(cell, of, start_of(self.starts, cell))),
            },
        }
    }

    fn solution(
        &self,
        alloc: Global,
        problem: &Puzzle<'a>,
    ) -> Result<Option<Items<usize>>, NoMemory> {
        if has_clash(problem.clashes, self.values.as_slice()) {
            return Ok(None);
        }
        Ok(Some(Items::from_vec(self.values.as_slice().to_vec(alloc)?)))
    }

    fn vain_from(&self, _problem: &Puzzle<'a>, _site: usize, _alternative: usize) -> usize {
        0
    }

    fn push(
        &mut self,
        problem: &Puzzle<'a>,
        _site: usize,
        alternative: usize,
    ) -> Result<bool, NoMemory> {
        self.values.push(alternative)?;
        Ok(!has_clash(problem.clashes, self.values.as_slice()))
    }

    fn undo(&mut self, _problem: &Puzzle<'a>, count: usize) {
        self.values.truncate(count);
    }

    ghost shorter = { λ p ds es s led. leads_shorter p.sizes.now p.clashes.now ds es s led };

    ghost one_way = { λ p ds site a b s one other. leads_one_way p.sizes.now p.clashes.now ds a b
        s one other };
}

/// A solution of the puzzle, where there is one. A cell whose number is to be chosen is tried
/// from the number in `starts` on, round.
pub fn solve<'a>(
    alloc: Global,
    puzzle: Puzzle<'a>,
    starts: &'a [usize],
) -> Result<Option<Items<usize>>, NoMemory>
    ensures found { IfOk result (λ found. IfSome found (λ s.
        IsSolution puzzle.entry.sizes.now puzzle.entry.clashes.now s)) }
    ensures none { IfOk result (λ found. IsNone found
        ↔ ((s : List ℕ) → IsSolution puzzle.entry.sizes.now puzzle.entry.clashes.now s → ⊥)) }
{
    solve_while(alloc, &ToTheEnd, puzzle, starts)
}

/// A solution of the puzzle, where there is one, as `solve`. It asks whether it goes on.
pub fn solve_while<'a, A: Asked>(
    alloc: Global,
    asked: &A,
    puzzle: Puzzle<'a>,
    starts: &'a [usize],
) -> Result<Option<Items<usize>>, A::Halt>
    ensures found { IfOk result (λ found. IfSome found (λ s.
        IsSolution puzzle.entry.sizes.now puzzle.entry.clashes.now s)) }
    ensures none { IfOk result (λ found. IsNone found
        ↔ ((s : List ℕ) → IsSolution puzzle.entry.sizes.now puzzle.entry.clashes.now s → ⊥)) }
{
    let mut filling = Filling {
        values: Vec::new(alloc),
        starts,
    };
    let mut choices = Choices::new(alloc);
    rn_choices::find_while(alloc, &puzzle, &mut filling, &mut choices, asked)
}

/// All solutions of the puzzle, each once.
pub fn solutions(alloc: Global, puzzle: Puzzle<'_>) -> Result<Vec<Items<usize>>, NoMemory>
    ensures all { IfOk result (λ found. (s : List ℕ) → Contains found.items s
        ↔ IsSolution puzzle.entry.sizes.now puzzle.entry.clashes.now s) }
    ensures once { IfOk result (λ found. AllPairs (λ s t. s ≢ t) found.items) }
{
    let mut filling = Filling {
        values: Vec::new(alloc),
        starts: &[],
    };
    let mut choices = Choices::new(alloc);
    rn_choices::all(alloc, &puzzle, &mut filling, &mut choices)
}
