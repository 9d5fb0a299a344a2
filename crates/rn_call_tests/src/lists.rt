//! Lists, boxes and values of several owners, also of types that contain themselves.
use rn_items::{Boxed, Items};
use rn_shared::Shared;
use std::cmp::Ordering;
use std::test::Fail;

/// A tree, which contains itself through a list.
#[derive(Debug, Drop, PartialEq, Eq, PartialOrd, Ord)]
enum Tree {
    Leaf(u32),
    Branch(Items<Tree>),
}

#[derive(Debug, Drop, PartialEq, Eq)]
enum Chain {
    End,
    Link(Boxed<Chain>),
}

/// A pair whose parts may have several owners.
#[derive(Debug, Drop, PartialEq, Eq)]
enum Part {
    Number(u32),
    Pair(Shared<Part>, Shared<Part>),
}

#[test]
fn lists(rt: HostRuntime) -> Result<(), Fail> {
    let mut made = Items::new(rt.alloc());
    made.push(7u32)?;
    made.push(9)?;
    assert!(rt; made.get(2).is_none());
    assert_eq!(rt; made.iter().count(), 2);
    let shorter = Items::from_vec(Vec::from_slice(rt.alloc(), &[7])?);
    let same = Items::from_vec(Vec::from_slice(rt.alloc(), &[7, 9])?);
    assert!(rt; made == same);
    assert_eq!(rt; shorter.cmp(&made), Ordering::Less);
    assert_eq!(rt; made.partial_cmp(&shorter), Some(Ordering::Greater));
    assert_eq!(rt; made.into_vec().len(), 2);
    Ok(())
}

#[test]
fn trees(rt: HostRuntime) -> Result<(), Fail> {
    let mut few = Items::new(rt.alloc());
    few.push(Tree::Leaf(1))?;
    let mut many = Items::new(rt.alloc());
    many.push(Tree::Leaf(1))?;
    many.push(Tree::Branch(Items::new(rt.alloc())))?;
    assert_eq!(rt; Tree::Branch(few).cmp(&Tree::Branch(many)), Ordering::Less);
    Ok(())
}

#[test]
fn chains(rt: HostRuntime) -> Result<(), Fail> {
    let boxed = Boxed::from_box(Box::new(rt.alloc(), Chain::End)?);
    let outer = Boxed::new(rt.alloc(), Chain::Link(boxed))?;
    assert!(rt; *outer == Chain::Link(Boxed::new(rt.alloc(), Chain::End)?));
    assert!(rt; matches!(outer.into_inner(), Chain::Link(_)));
    Ok(())
}

#[test]
fn handles(rt: HostRuntime) -> Result<(), Fail> {
    let first = Shared::new(rt.alloc(), 7u32)?;
    let second = first.share()?;
    assert!(rt; second == first);
    drop(first);
    assert_eq!(rt; *second.get(), 7);
    Ok(())
}

#[test]
fn one_handle_gives_up_its_value(rt: HostRuntime) -> Result<(), Fail> {
    let first = Shared::new(rt.alloc(), 7u32)?;
    let second = first.share()?;
    assert!(rt; second.try_unwrap().is_err());
    assert!(rt; matches!(first.try_unwrap(), Ok(7)));
    Ok(())
}

#[test]
fn handles_are_ordered(rt: HostRuntime) -> Result<(), Fail> {
    let low = Shared::new(rt.alloc(), 7u32)?;
    let high = Shared::new(rt.alloc(), 9)?;
    assert_eq!(rt; low.cmp(&high), Ordering::Less);
    assert_eq!(rt; high.partial_cmp(&low), Some(Ordering::Greater));
    Ok(())
}

#[test]
fn pairs_are_compared(rt: HostRuntime) -> Result<(), Fail> {
    let number = Shared::new(rt.alloc(), Part::Number(1))?;
    let one = Part::Pair(number.share()?, number.share()?);
    let same = Part::Pair(Shared::new(rt.alloc(), Part::Number(1))?, number);
    assert!(rt; one == same);
    Ok(())
}
