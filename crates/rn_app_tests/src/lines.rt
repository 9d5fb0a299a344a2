//! Values and nodes that are read by themselves, which no command does.
use rn_lines::{line_laws, lines_are_read_by_their_grammar, read_node, read_value, value_laws};
use std::alloc::Global;
use std::test::Fail;

// How many bytes are left after the value at the start, and how many instances it names.
fn value_in(alloc: Global, row: &str) -> Result<(usize, usize), Fail> {
    let read = read_value(alloc, row.as_bytes())?;
    Ok((read.rest.len(), read.mentions.len()))
}

// How many variables the node has.
fn variables_in(alloc: Global, row: &str) -> Result<usize, Fail> {
    let node = read_node(alloc, row.as_bytes())?;
    Ok(node.given.len())
}

#[test]
fn by_themselves(rt: HostRuntime) -> Result<(), Fail> {
    assert_eq!(rt; value_in(rt.alloc(), "{worker[2],[main[1],-5]} x")?, (2, 2));
    assert_eq!(rt;
        variables_in(rt.alloc(), "worker[12].step k=\"a b\" w={worker[2],[]}")?,
        2
    );
    value_laws();
    line_laws();
    lines_are_read_by_their_grammar();
    Ok(())
}
