//! How many rows were judged, and how many of them aren't as they must be.
ghost use Rattle.std.specs.Prelude.{◌≡◌, ◌+◌, ◌<◌, ◌≤◌, ◌^◌, if◌then◌else◌};

/// The numbers of rows that were judged, and of those that aren't as they must be.
#[derive(Clone, Copy, PartialEq, Eq)]
pub(crate) struct RowTally {
    pub(crate) rows: u64,
    pub(crate) differ: u64,
    ghost fewer: { differ ≤ rows },
}

impl RowTally {
    /// Of no rows.
    pub(crate) fn nothing() -> RowTally
        ensures rows { result.rows ≡ 0 }
        ensures differ { result.differ ≡ 0 }
    {
        RowTally { rows: 0, differ: 0 }
    }

    /// Counts one row more.
    pub(crate) fn count(self, differs: bool) -> RowTally
        requires { self.rows + 1 < 2 ^ 64 }
        ensures rows { result.rows ≡ self.rows + 1 }
        ensures differ { result.differ ≡ self.differ + (if differs then 1 else 0) }
    {
        RowTally {
            rows: self.rows + 1,
            differ: if differs {
                self.differ + 1
            } else {
                self.differ
            },
        }
    }
}
