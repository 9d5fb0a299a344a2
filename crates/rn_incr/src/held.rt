//! Which instances may refer to which.
ghost use Rattle.std.specs.Prelude.{IfOk};
ghost use Rattle.rn_model.specs.Good.{Good};
ghost use Rattle.rn_search.specs.Problems.{HasFitTokens};
ghost use Rattle.rn_holders.specs.Holders.{HaveHolders};

use rn_holders::hold_all;
use rn_items::NoMemory;
use rn_model::{Nums, System};
use rn_table::Table;
use std::alloc::Global;

/// The holders of each instance of a table.
pub(crate) fn holders_at(
    alloc: Global,
    system: &System,
    table: &Table,
) -> Result<Vec<Nums>, NoMemory>
    requires good { Good system.now }
    requires tokens { HasFitTokens system.now table.now.marking }
    ensures { IfOk result (λ holders. HaveHolders table.now.marking holders.items) }
{
    let mut holders = Vec::new(alloc);
    let numbers = table.instances()?;
    hold_all(table, numbers.as_slice(), &mut holders)?;
    Ok(holders)
}
