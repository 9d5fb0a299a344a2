//! Sleeping until a ticket is about to be served. None of these calls changes the desk's table, so
//! none is a step.
use super::Desk;
use crate::kept::Kept;
use crate::rule::{SERVING, TICKET};
use std::sync::Wait;

/// How many tickets may be served before one so that its worker looks and doesn't sleep.
const NEAR: u64 = 3;

/// How many tickets are served before one when it is called, so that its worker is awake in time.
const AHEAD: u64 = 1;

impl<S: Kept> Desk<S> {
    // Whether a ticket is served soon.
    pub(crate) fn is_near(&self, ticket: u64) -> bool {
        ticket.wrapping_sub(self.table.shared.peek(SERVING)) <= NEAR
    }

    // Sleeps until this ticket is called, unless it is served. It may return for no reason. A call
    // after the look isn't missed, since the door was shut before it.
    pub(crate) fn sleep<R: Wait>(&self, rt: &R, ticket: u64) {
        self.doors.shut(ticket);
        if self.table.shared.peek(SERVING) != ticket {
            self.doors.sleep(rt, ticket);
        }
    }

    // Calls the ticket that is served, and the one that is served soon, where they were drawn. Who
    // draws one later looks before it sleeps.
    pub(crate) fn call_who_waits(&self) {
        let served = self.table.shared.peek(SERVING);
        let waiting = self.table.shared.peek(TICKET).wrapping_sub(served);
        if waiting > 0 {
            self.doors.open(served);
        }
        if waiting > AHEAD {
            self.doors.open(served.wrapping_add(AHEAD));
        }
    }
}
