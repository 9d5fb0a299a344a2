//! A search that a flag stops, and one with very many choices.
use rn_choices::{Flag, Halt};
use rn_choices_uses::{Puzzle, solutions, solve, solve_while};
use std::test::Fail;

#[test]
fn stopped(rt: HostRuntime) -> Result<(), Fail> {
    let alloc = rt.alloc();
    let puzzle = Puzzle {
        sizes: &[2, 2],
        clashes: &[],
    };
    let stop = Flag::new();
    let found = solve_while(alloc, &stop, puzzle, &[])?.ok_or("none")?;
    assert_eq!(rt; found.as_slice(), [0, 0].as_slice());
    stop.raise();
    let answer = solve_while(alloc, &stop, puzzle, &[]);
    assert!(rt; matches!(answer, Err(Halt::Stopped)));
    assert_eq!(rt; solutions(alloc, puzzle)?.len(), 4);
    Ok(())
}

#[test]
fn many_choices(rt: HostRuntime) -> Result<(), Fail> {
    let alloc = rt.alloc();
    let sizes = vec![in alloc; 2; 300000]?;
    let puzzle = Puzzle {
        sizes: sizes.as_slice(),
        clashes: &[],
    };
    let found = solve(alloc, puzzle, &[1])?.ok_or("none")?;
    assert_eq!(rt; found.len(), 300000);
    Ok(())
}
