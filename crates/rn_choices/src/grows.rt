//! What a search works on: something that grows by decisions towards a solution.

ghost use Rattle.std.specs.Prelude.{◌≡◌, ◌+◌, ◌<◌, ◌≤◌, ◌++◌, ◌∷◌, [], ℕ, List, length, take};
ghost use Rattle.std.specs.Prelude.{false, IsTrue, IfOk};
ghost use Rattle.rn_choices.specs.Leading.{Says, NoneLeads, IsOnly};

use crate::next::Next;
use rn_items::NoMemory;
use std::alloc::Global;

/// Something that grows by decisions towards a solution of a problem.
pub trait Grows {
    type Problem;

    /// Where a decision is to be made.
    type Site: Copy;

    /// What a decision means. It stands in contracts alone.
    type Decision;

    type Solution: Drop;

    /// The decisions made, oldest first.
    ghost decisions: { Self.Problem → Self → List Self.Decision };

    /// It belongs to this problem. Each call keeps that.
    ghost stands: { Self.Problem → Self → Type 0 };

    /// It is a solution of the problem, and begins with the decisions. The solutions are those that
    /// begin with none.
    ghost leads: { Self.Problem → List Self.Decision → Self.Solution → Type 0 };

    /// What an alternative of a site means, after these decisions.
    ghost offers: { Self.Problem → List Self.Decision → Self.Site → ℕ → Self.Decision };

    /// No decision is left to be made.
    ghost ends: { Self.Problem → Self → Type 0 };

    /// The alternative may be tried, after these decisions: what `push` asks.
    ghost allows: { Self.Problem → List Self.Decision → Self.Site → ℕ → Type 0 };

    /// A number that falls with each decision.
    ghost room: { Self.Problem → List Self.Decision → ℕ };

    /// How many decisions were made.
    fn count(&self, problem: &Self::Problem) -> usize
        ensures { result ≡ length (decisions problem.now self.now) };

    /// How it goes on. It makes no decision.
    fn next(&mut self, problem: &Self::Problem) -> Result<Next<Self::Site>, NoMemory>
        requires { stands problem.now self.old }
        ensures stands { IfOk result (λ _. stands problem.now self.new) }
        ensures same { IfOk result (λ _. decisions problem.now self.new
            ≡ decisions problem.now self.old) }
        ensures says { IfOk result (λ next. Says (leads problem.now) (offers problem.now)
            (allows problem.now)
            (ends problem.now self.new) (decisions problem.now self.old) next) };

    /// The solution that begins with the decisions, which are all. `None` where there is none.
    fn solution(
        &self,
        alloc: Global,
        problem: &Self::Problem,
    ) -> Result<Option<Self::Solution>, NoMemory>
        requires stands { stands problem.now self.now }
        requires ends { ends problem.now self.now }
        ensures { IfOk result (λ found. IsOnly (leads problem.now
            (decisions problem.now self.now)) found) };

    /// How many alternatives from this one on are seen at once to lead to no solution. They needn't be
    /// tried. It may be 0.
    fn vain_from(&self, problem: &Self::Problem, site: Self::Site, alternative: usize) -> usize
        requires { stands problem.now self.now }
        ensures { (a : ℕ) → alternative ≤ a → a < alternative + result →
            NoneLeads (leads problem.now) (decisions problem.now self.now
            ++ offers problem.now (decisions problem.now self.now) site a ∷ []) };

    /// Makes one more decision. After `false`, where no solution begins with the decisions and this
    /// one, it may have been made or not.
    fn push(
        &mut self,
        problem: &Self::Problem,
        site: Self::Site,
        alternative: usize,
    ) -> Result<bool, NoMemory>
        requires stands { stands problem.now self.old }
        requires allows { allows problem.now (decisions problem.now self.old) site alternative }
        ensures stands { IfOk result (λ _. stands problem.now self.new) }
        ensures pushed { IfOk result (λ may. IsTrue may → decisions problem.now self.new
            ≡ decisions problem.now self.old
            ++ offers problem.now (decisions problem.now self.old) site alternative ∷ []) }
        ensures room { IfOk result (λ may. IsTrue may →
            room problem.now (decisions problem.now self.new) < room problem.now
            (decisions problem.now self.old)) }
        ensures kept { IfOk result (λ may.
            take (length (decisions problem.now self.old)) (decisions problem.now self.new)
            ≡ decisions problem.now self.old) }
        ensures none { IfOk result (λ may. may ≡ false → NoneLeads (leads problem.now)
            (decisions problem.now self.old
            ++ offers problem.now (decisions problem.now self.old) site alternative ∷ [])) };

    /// Takes back all decisions but the first `count`.
    fn undo(&mut self, problem: &Self::Problem, count: usize)
        requires stands { stands problem.now self.old }
        requires within { count ≤ length (decisions problem.now self.old) }
        ensures stands { stands problem.now self.new }
        ensures taken_back { decisions problem.now self.new
            ≡ take count (decisions problem.now self.old) };

    /// What begins with decisions begins with fewer of them.
    ghost shorter: { (p : Self.Problem) (ds es : List Self.Decision) (s : Self.Solution)
        → leads p (ds ++ es) s → leads p ds s };

    /// No solution goes on with two alternatives.
    ghost one_way: { (p : Self.Problem) (ds : List Self.Decision) (site : Self.Site) (a b : ℕ)
        (s : Self.Solution)
        → leads p (ds ++ offers p ds site a ∷ []) s → leads p (ds ++ offers p ds site b ∷ []) s →
        a ≡ b };
}
