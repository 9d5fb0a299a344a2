//! Values of expressions that no command asks for, and copies of entries of a log.
ghost use Rattle.std.specs.Prelude.{◌≤◌, IfOk};
ghost use Rattle.rn_model.specs.Limits.{greatest_step};

use rn_calc::{Given, calc};
use rn_items::Items;
use rn_model::limits::GREATEST_STEP;
use rn_model::{
    Binding, Entry, Expr, FaultKind, Node, Reason, copy_binding, copy_entry, same_binding,
};
use rn_value::{InstRef, NoMemory, Value};
use std::alloc::Global;
use std::test::Fail;

// Variable 3 is 7.
fn given(alloc: Global) -> Result<Given, NoMemory>
    ensures { IfOk result (λ given. given.step ≤ greatest_step) }
{
    Ok(Given {
        this: InstRef::Old(1),
        step: GREATEST_STEP,
        pairs: Items::from_vec(Vec::from_array(alloc, [(3, Value::Int(7))])?),
    })
}

// The number that a variable is.
fn number_of(alloc: Global, x: u32) -> Result<Option<i64>, NoMemory> {
    let given = given(alloc)?;
    match calc(alloc, &Expr::Var(x), &given)? {
        Some(Value::Int(n)) => Ok(Some(n)),
        _ => Ok(None),
    }
}

#[test]
fn a_variable_is_computed(rt: HostRuntime) -> Result<(), Fail> {
    assert_eq!(rt; number_of(rt.alloc(), 3)?, Some(7));
    assert_eq!(rt; number_of(rt.alloc(), 4)?, None);
    Ok(())
}

// A binding of one node with the value 1.
fn one_node(alloc: Global) -> Result<Binding, NoMemory> {
    let node = Node {
        path: Items::new(alloc),
        inst: InstRef::Old(1),
        net: 0,
        transition: 0,
        values: Items::from_vec(Vec::from_array(alloc, [Value::Int(1)])?),
    };
    let nodes = Items::from_vec(Vec::from_array(alloc, [node])?);
    Ok(Binding { nodes })
}

fn is_fault_of(entry: &Entry, binding: &Binding) -> bool {
    match entry {
        Entry::End(Reason::Fault(FaultKind::Instances, copied)) => same_binding(copied, binding),
        _ => false,
    }
}

fn fault_is_copied(alloc: Global) -> Result<bool, NoMemory> {
    let binding = one_node(alloc)?;
    let fault = Entry::End(Reason::Fault(FaultKind::Instances, copy_binding(alloc, &binding)?));
    Ok(is_fault_of(&copy_entry(alloc, &fault)?, &binding))
}

#[test]
fn an_entry_is_copied(rt: HostRuntime) -> Result<(), Fail> {
    assert!(rt; fault_is_copied(rt.alloc())?);
    Ok(())
}
