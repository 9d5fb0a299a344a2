//! What is known of a test of a node: of a guard, of an inhibitor or flexible arc, or of all of
//! them. That it holds or fails is said of all bindings to which the decisions lead, so it stays so
//! with further decisions, and only a test that waits is made again (`docs/SEARCH.md`, 'What it
//! does next').
ghost use Rattle.std.specs.Prelude.{◌≡◌, ◌↔◌, IsTrue};
ghost use Rattle.rn_looking.specs.declared.told.Verdict.TheVariants.{Fails, Holds};

/// What is known of a test.
#[derive(Clone, Copy, Debug)]
pub(crate) enum Verdict {
    /// Each binding to which the decisions lead passes it.
    Holds,

    /// It isn't known whether it does.
    Waits,

    /// None passes it.
    Fails,
}

/// Tests of which none fails hold, unless one waits.
pub(crate) fn unless_waits(waits: bool) -> Verdict
    ensures { result ≡ Fails → ⊥ }
{
    if waits {
        Verdict::Waits
    } else {
        Verdict::Holds
    }
}

/// A test of which a part is known to fail, or that waits.
pub(crate) fn fails_or_waits(fails: bool) -> Verdict
    ensures { result ≡ Fails → IsTrue fails }
{
    if fails {
        Verdict::Fails
    } else {
        Verdict::Waits
    }
}

/// Whether a test is known to fail.
pub(crate) fn has_failed(told: Verdict) -> bool
    ensures { IsTrue result ↔ (told ≡ Fails) }
{
    matches!(told, Verdict::Fails)
}

/// Whether a test is known to hold.
pub(crate) fn holds(told: Verdict) -> bool
    ensures { IsTrue result ↔ (told ≡ Holds) }
{
    matches!(told, Verdict::Holds)
}
