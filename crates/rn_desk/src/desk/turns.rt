//! Taking a turn, and giving it back.
ghost use Rattle.std.specs.Prelude.{◌≡◌};
ghost use Rattle.rn_desk.specs.Entries.{StartsWith, AddsAtMostOne, GrowsOwn};
ghost use Rattle.rn_desk.specs.link.Taken.{state_of};
ghost use Rattle.rn_desk.specs.Passes.{fixed_of, number, seen, mine, IsOf, HasNoTurn, HasTurn};

use super::{Desk, Pass, Turn};
use crate::kept::Kept;
use std::hint::spin_loop;
use std::sync::Wait;

/// How often a worker whose ticket is served soon looks before it sleeps.
const LOOKS: u32 = 100;

impl<S: Kept> Desk<S> {
    /// Draws a ticket, waits until it is served, and takes the state out. Where it is
    /// served soon it looks some times, and else it sleeps until it is called. It may wait forever.
    pub fn take<R: Wait>(&self, rt: &R, pass: &mut Pass<S>) -> Turn<S>
        requires here { IsOf S.fixed self.now pass.old }
        requires free { HasNoTurn pass.old }

        // The turn.
        ensures entries { StartsWith (S.entries (state_of result)) (seen pass.old) }
        ensures fixed { S.fixed (state_of result) ≡ fixed_of S.fixed self.now }
        ensures turn { HasTurn pass.new result }

        // The pass.
        ensures here { IsOf S.fixed self.now pass.new }
        ensures number { number pass.new ≡ number pass.old }
        ensures seen { seen pass.new ≡ S.entries (state_of result) }
        ensures mine { mine pass.new ≡ mine pass.old }
    {
        let ticket = self.draw_ticket(&mut pass.seat);
        let mut looks = 0;
        for _ in rt.forever() {
            if self.look_at_serving(&mut pass.seat, ticket) {
                let state = self.take_state_out(&mut pass.seat);
                let length = state.length();
                return Turn { state, length };
            }
            if looks < LOOKS && self.is_near(ticket) {
                looks += 1;
                spin_loop();
            } else {
                self.sleep(rt, ticket);
            }
        }
        unreachable!()
    }

    /// Puts the state back, with at most one entry more, and passes the turn on.
    pub fn give(&self, pass: &mut Pass<S>, turn: Turn<S>)
        requires here { IsOf S.fixed self.now pass.old }
        requires turn { HasTurn pass.old turn }
        requires fixed { S.fixed (state_of turn) ≡ fixed_of S.fixed self.now }
        requires entries { AddsAtMostOne S.author (number pass.old) (seen pass.old) (S.entries (state_of turn)) }

        ensures here { IsOf S.fixed self.now pass.new }
        ensures free { HasNoTurn pass.new }
        ensures number { number pass.new ≡ number pass.old }
        ensures seen { seen pass.new ≡ S.entries (state_of turn) }
        ensures mine { GrowsOwn S.author (number pass.old) (seen pass.old) (S.entries (state_of turn))
            (mine pass.old) (mine pass.new) }
    {
        let Turn { state, length } = turn;
        let full = Some(state);
        self.count_entry(&mut pass.seat, length, &full);
        self.put_state_back(&mut pass.seat, full);
        self.pass_turn_on(&mut pass.seat);
        self.call_who_waits();
    }
}
