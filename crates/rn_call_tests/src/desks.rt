//! What passes and several threads leave on the sheet.
ghost use Rattle.rn_desk.specs.Passes.{IsBack};

use rn_desk::{Closed, Desk, Kept, Pass, close, open_desk};
use rn_desk_uses::{Line, PassSight, Sheet, look, look_all, write_note, write_sheet};
use std::sync::Wait;
use std::test::Fail;

// Whether these are the rounds from 0 of each worker, each once and in order, and none of another.
fn is_whole(lines: &[Line], workers: u32, rounds: u32) -> bool {
    let mut next = [0u32; 65];
    for line in lines {
        let worker = line.worker as usize;
        if worker == 0 || worker > 64 || line.round != next[worker] {
            return false;
        }
        next[worker] = next[worker].wrapping_add(1);
    }
    for worker in 1..65u32 {
        let wanted = if worker <= workers { rounds } else { 0 };
        if next[worker as usize] != wanted {
            return false;
        }
    }
    true
}

#[test]
fn each_worker_leaves_its_lines(rt: HostRuntime) -> Result<(), Fail> {
    for (workers, rounds) in [(4, 300), (64, 20), (1, 300)] {
        let (sheet, tallies) = write_sheet(&rt, rt.alloc(), workers, rounds)?;
        assert!(rt;
            is_whole(sheet.lines.as_slice(), workers, rounds),
            "{workers} workers"
        );
        assert!(rt; tallies.len() == workers as usize, "{workers} workers");
        for tally in &tallies {
            assert!(rt; tally.fired == rounds as u64, "worker {}", tally.worker);
        }
    }
    Ok(())
}

// Writes the pass's number in one turn, and looks in the next.
fn write_and_look<R: Wait>(rt: &R, desk: &Desk<Sheet>, pass: &mut Pass<Sheet>, number: u32) -> bool
    requires { IsBack ⟦<Sheet as Kept>⟧.fixed desk.now number pass.old }
    ensures { IsBack ⟦<Sheet as Kept>⟧.fixed desk.now number pass.new }
{
    let mut turn = desk.take(rt, pass);
    let line = Line {
        worker: number,
        round: 0,
    };
    let written = turn.state().write(line);
    desk.give(pass, turn);
    let turn = desk.take(rt, pass);
    desk.give(pass, turn);
    written
}

#[test]
fn two_passes_write_in_turn(rt: HostRuntime) -> Result<(), Fail> {
    let (desk, mut passes) = open_desk(rt.alloc(), Sheet::new(rt.alloc(), 7), 2)?;
    let second = write_and_look(&rt, &desk, &mut passes[1], 2);
    let first = write_and_look(&rt, &desk, &mut passes[0], 1);
    let Closed { state } = close(desk, passes);
    assert!(rt; second && first && state.title == 7);
    assert_eq!(rt; state.lines.len(), 2);
    assert!(rt; state.lines[0].worker == 2 && state.lines[1].worker == 1);
    Ok(())
}

#[test]
fn a_note_has_no_author(rt: HostRuntime) -> Result<(), Fail> {
    let (desk, mut passes) = open_desk(rt.alloc(), Sheet::new(rt.alloc(), 7), 2)?;
    let written = write_note(&rt, &desk, &mut passes[0], 5);
    let entries = look(&rt, &desk, &mut passes[1]);
    let Closed { state } = close(desk, passes);
    assert!(rt; written && entries == 1);
    assert!(rt; state.lines.len() == 1 && state.lines[0].worker == 0 && state.lines[0].round == 5);
    Ok(())
}

#[test]
fn passes_look_side_by_side(rt: HostRuntime) -> Result<(), Fail> {
    let (desk, mut passes) = open_desk(rt.alloc(), Sheet::new(rt.alloc(), 7), 2)?;
    let pass = passes.remove(0);
    let mut sights = Vec::with_capacity(rt.alloc(), 2)?;
    sights.push(PassSight { pass, entries: 9 })?;
    let pass = passes.remove(0);
    sights.push(PassSight { pass, entries: 9 })?;
    look_all(&rt, &desk, sights.as_mut_slice());
    for sight in &sights {
        assert_eq!(rt; sight.entries, 0);
    }
    Ok(())
}
