//! Expressions that are read by themselves.
use rn_inscript::InscriptFault::{self, P2};
use rn_inscript::read_expr;
use rn_notation::lex;
use std::alloc::Global;
use std::test::Fail;

// So many bytes of a text of a table are read, at most.
const LONGEST_ROW: usize = 100;

// The index after an expression.
fn end_of(alloc: Global, text: &str) -> Result<usize, InscriptFault> {
    let bytes = text.as_bytes();
    let lexed = lex(alloc, &bytes[..bytes.len().min(LONGEST_ROW)])?;
    let (_, end) = read_expr(alloc, &lexed.tokens, 0)?;
    Ok(end)
}

#[test]
fn ends_of_expressions(rt: HostRuntime) -> Result<(), Fail> {
    let rows = [
        ("a + (b) ;", Ok(5)),
        ("x == y", Ok(1)),
        ("a + ;", Err(P2(2))),
    ];
    for (text, wanted) in rows {
        let found = end_of(rt.alloc(), text);
        assert_eq!(&rt; found, wanted);
    }
    Ok(())
}
