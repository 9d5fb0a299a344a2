//! Values of several forms, which no place holds together, and which instances have names.
use rn_items::Items;
use rn_value::{
    InstRef, Names, NoMemory, Path, Str, Value, are_named, cmp, cmp_laws, copy, copy_text,
    list_value, own_items, same, shared_text, sorting_laws, text_laws, tuple_value,
};
use std::alloc::Global;
use std::test::Fail;

fn string(alloc: Global, text: &str) -> Result<Str, NoMemory> {
    Ok(Str::from_string(String::from_str(alloc, text)?))
}

fn made(alloc: Global, path: &[u32], index: u8) -> Result<Value, NoMemory> {
    let path: Path = Items::from_vec(Vec::from_slice(alloc, path)?);
    Ok(Value::Inst(InstRef::New(path, index)))
}

/// One value after the other, each before the next in the order of values.
fn ascending(alloc: Global) -> Result<Vec<Value>, NoMemory> {
    let mut values = Vec::new(alloc);
    values.push(Value::Int(7))?;
    values.push(Value::Text(shared_text(alloc, &string(alloc, "")?)?))?;
    values.push(tuple_value(alloc, Items::new(alloc))?)?;
    values.push(list_value(alloc, Items::new(alloc))?)?;
    values.push(Value::Inst(InstRef::Old(u32::MAX)))?;
    for (path, index) in [
        ([].as_slice(), 0),
        (&[], 1),
        (&[0], 0),
        (&[0, 3], 0),
        (&[1], 0),
    ] {
        values.push(made(alloc, path, index)?)?;
    }
    Ok(values)
}

/// A list of a text and a number.
fn two_elements(alloc: Global) -> Result<Value, NoMemory> {
    let mut elements = Vec::new(alloc);
    elements.push(Value::Text(shared_text(alloc, &string(alloc, "a")?)?))?;
    elements.push(Value::Int(7))?;
    list_value(alloc, Items::from_vec(elements))
}

/// How many elements are taken out of a list.
fn elements_taken(alloc: Global, list: Value) -> Result<usize, NoMemory> {
    match list {
        Value::List(elements) => Ok(own_items(alloc, elements)?.len()),
        _ => Ok(0),
    }
}

/// How many are taken out of a list with a copy of it beside it.
fn taken_beside_a_copy(alloc: Global) -> Result<usize, NoMemory> {
    let list = two_elements(alloc)?;
    let other = copy(alloc, &list)?;
    let taken = elements_taken(alloc, list)?;
    drop(other);
    Ok(taken)
}

/// A text, a copy of it, and one that values may share.
fn copies_of_a_text(alloc: Global) -> Result<bool, NoMemory> {
    let first = string(alloc, "ab")?;
    let second = copy_text(alloc, &first)?;
    let third = shared_text(alloc, &second)?;
    Ok(first == second && third.as_str() == "ab")
}

/// The first two indices whose order isn't that of their values.
fn first_out_of_order(values: &[Value]) -> Option<(usize, usize)> {
    for (i, a) in values.iter().enumerate() {
        for (j, b) in values.iter().enumerate() {
            if cmp(a, b) != i.cmp(&j) || same(a, b) != (i == j) {
                return Some((i, j));
            }
        }
    }
    None
}

#[test]
fn copies(rt: HostRuntime) -> Result<(), Fail> {
    let list = two_elements(rt.alloc())?;
    assert_eq!(rt; elements_taken(rt.alloc(), list)?, 2);
    assert_eq!(rt; taken_beside_a_copy(rt.alloc())?, 2);
    assert!(rt; copies_of_a_text(rt.alloc())?);
    Ok(())
}

#[test]
fn order_of_forms(rt: HostRuntime) -> Result<(), Fail> {
    let values = ascending(rt.alloc())?;
    assert_eq!(&rt; first_out_of_order(values.as_slice()), None);
    cmp_laws();
    sorting_laws();
    text_laws();
    Ok(())
}

fn one_name(alloc: Global) -> Result<Names, NoMemory> {
    let mut names = Names::new(alloc);
    names.push(alloc, &string(alloc, "main")?)?;
    Ok(names)
}

fn is_made_named(alloc: Global, names: &Names) -> Result<bool, NoMemory> {
    let value = made(alloc, &[], 0)?;
    Ok(are_named(&value, names))
}

#[test]
fn named(rt: HostRuntime) -> Result<(), Fail> {
    assert!(rt; Names::new(rt.alloc()).is_empty());
    let names = one_name(rt.alloc())?;
    for (number, wanted) in [(0, false), (1, true), (2, false)] {
        assert_eq!(rt;
            are_named(&Value::Inst(InstRef::Old(number)), &names),
            wanted
        );
    }
    assert!(rt; !is_made_named(rt.alloc(), &names)?);
    Ok(())
}
