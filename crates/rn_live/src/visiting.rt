//! The instances that occur in values.
ghost use Rattle.std.specs.Prelude.{map};
ghost use Rattle.std.specs.List.{list_any};
ghost use Rattle.rn_model.specs.Liveness.{mentions};
ghost use Rattle.rn_live.specs.link.Marks.{FindsIn, HasRoom};

use crate::found::Found;
use rn_table::Table;
use rn_value::{InstRef, Value};

/// Finds each kept instance that occurs in a value. It goes as deep as the value nests.
#[cycle(visit)]
pub(crate) fn visit(value: &Value, table: &Table, found: &mut Found)
    requires { HasRoom found.old }
    ensures { FindsIn table.now.marking (mentions value.now) found.old found.new }
{
    match value {
        Value::Int(_) => {}
        Value::Text(_) => {}
        Value::Tuple(parts) => visit_all(parts.as_slice(), table, found),
        Value::List(parts) => visit_all(parts.as_slice(), table, found),
        Value::Inst(InstRef::Old(number)) => found.add(table, *number),
        Value::Inst(InstRef::New(_, _)) => {}
    }
}

/// Finds each kept instance that occurs in one of these values.
#[cycle(visit)]
#[tactic(auto, using(crate::proofs::FindLemmas::still_room))]
pub(crate) fn visit_all(values: &[Value], table: &Table, found: &mut Found)
    requires { HasRoom found.old }
    ensures { FindsIn table.now.marking
        (λ n. list_any (λ test. test n) (map mentions values.now)) found.old found.new }
{
    for value in values {
        visit(value, table, found);
    }
}
