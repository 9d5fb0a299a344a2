//! Which of two looks goes on better: the one that counts as fewer alternatives. So what is forced,
//! or ends the branch, comes before each choice, and narrow choices before wide ones. Where one
//! alternative at most is left, nothing better can come, and the look ends (`docs/SEARCH.md`, 'What
//! it does next').
ghost use Rattle.std.specs.Prelude.{IsTrue};
ghost use Rattle.rn_looking.specs.Looks.{IsBetter, Urges};

use crate::look::Look;

/// The look that goes on, and counts as fewer alternatives.
pub(crate) fn better(one: Look, other: Look) -> Look
    ensures { IsBetter one other result }
{
    match one {
        Look::Done => other,
        Look::Waits => match other {
            Look::Goes(next, count) => Look::Goes(next, count),
            _ => Look::Waits,
        },
        Look::Goes(next, count) => match other {
            Look::Goes(then, fewer) => {
                if fewer < count {
                    Look::Goes(then, fewer)
                } else {
                    Look::Goes(next, count)
                }
            }
            _ => Look::Goes(next, count),
        },
    }
}

/// Whether nothing better can come.
pub(crate) fn is_best(look: Look) -> bool
    ensures { IsTrue result → Urges look }
{
    match look {
        Look::Goes(_, count) => count < 2,
        _ => false,
    }
}

/// Whether nothing better was found than a call of which each answer asks for nothing.
pub(crate) fn is_idle(look: Look) -> bool {
    match look {
        Look::Goes(_, count) => count == usize::MAX,
        _ => false,
    }
}

/// Whether it need not be looked further: nothing better can come, or nothing better was there when a
/// look went on with such a call, and this is one.
pub(crate) fn is_enough(look: Look, idle: bool) -> bool
    ensures { IsTrue result → Urges look }
{
    match look {
        Look::Goes(_, count) => count < 2 || (idle && count == usize::MAX),
        _ => false,
    }
}

/// As how many alternatives a look counts.
pub(crate) fn count_of(look: Look) -> usize {
    match look {
        Look::Goes(_, count) => count,
        _ => usize::MAX,
    }
}

/// Whether the search can go on so, or stops.
pub(crate) fn goes_on(look: Look) -> bool
    ensures { IsTrue result → Urges look }
{
    match look {
        Look::Goes(_, _) => true,
        _ => false,
    }
}
