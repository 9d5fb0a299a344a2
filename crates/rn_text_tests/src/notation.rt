//! The slices of tokens.
use rn_notation::{Lexed, Tokens, lex};
use rn_value::NoMemory;
use std::alloc::Global;
use std::test::Fail;

// So many bytes of a text are read, at most.
const LONGEST_ROW: usize = 100;

fn tokens_of(alloc: Global, bytes: &[u8]) -> Result<Lexed, NoMemory> {
    lex(alloc, &bytes[..bytes.len().min(LONGEST_ROW)])
}

fn slice(tokens: &Tokens, at: usize) -> Option<(usize, usize)> {
    match tokens.get(at) {
        Some(token) => Some((token.start, token.end)),
        None => None,
    }
}

#[test]
fn slices(rt: HostRuntime) -> Result<(), Fail> {
    let lexed = tokens_of(rt.alloc(), b"\"\xC3\xA9\"a // \xC3\xA9\n;")?;
    let rows = [
        (0, Some((0, 4))),
        (1, Some((4, 5))),
        (2, Some((12, 13))),
        (3, None),
    ];
    for (at, wanted) in rows {
        assert_eq!(&rt; slice(&lexed.tokens, at), wanted);
    }
    Ok(())
}
