//! Doors at which workers sleep until their ticket is called. Each ticket has one, and no two
//! tickets that are out at once have the same, so that a call wakes no one else. Nothing is
//! promised of doors: who wakes looks at the ticket that is served, so waking for no reason does no
//! harm.
ghost use Rattle.std.specs.Prelude.{◌≡◌, ◌<◌};
ghost use Rattle.rn_desk.specs.declared.doors.TheConstants.{DOORS};

use atomic_table::{Play, Table, TableRule};
use rn_items::NoMemory;
use std::alloc::Global;
use std::sync::Wait;

/// Nothing is promised of doors: whoever comes in looks at the ticket that is served.
struct NoRule;

impl TableRule<(), (), ()> for NoRule {
    ghost holds = { λ _ _. Unit {0} };

    ghost first = { λ _. tt };
}

impl Play<(), ()> for NoRule {
    ghost then = { λ _ _ _ _. Unit {0} };
}

/// How many doors there are: as many as a desk has seats at most.
const DOORS: u64 = 64;

/// The word of a door that is open.
const OPEN: u64 = 0;

/// The word of a door that is shut: somebody sleeps there, or is about to.
const SHUT: u64 = 1;

/// A word for each door.
#[derive(Drop)]
pub(crate) struct Doors {
    table: Table<(), (), (), NoRule, Global>,
    ghost words: { table.shared.table_id.words ≡ DOORS },
}

// The door of a ticket.
fn door_of(ticket: u64) -> usize
    ensures { result < DOORS }
{
    (ticket % DOORS) as usize
}

impl Doors {
    /// All doors are open.
    pub(crate) fn new(alloc: Global) -> Result<Doors, NoMemory> {
        match Table::of_words(alloc, &[OPEN; 64], &()) {
            Ok((table, _seat)) => Ok(Doors { table }),
            Err(error) => Err(NoMemory::from(error)),
        }
    }

    /// Shuts the door of a ticket.
    pub(crate) fn shut(&self, ticket: u64) {
        self.set(door_of(ticket), SHUT);
    }

    /// Sleeps at the door of a ticket while it is shut. It may return for no reason.
    pub(crate) fn sleep<R: Wait>(&self, rt: &R, ticket: u64) {
        self.table.shared.park(rt, door_of(ticket), SHUT as u32);
    }

    /// Opens the door of a ticket, and wakes the worker that sleeps there.
    pub(crate) fn open(&self, ticket: u64) {
        let door = door_of(ticket);
        if self.set(door, OPEN) == SHUT {
            self.table.shared.wake_all(door);
        }
    }

    // Writes a door's word, and returns what it was.
    fn set(&self, door: usize, word: u64) -> u64
        requires { door < DOORS }
    {
        let (was, _seat) = self.table.shared.swap_new_seat::<NoRule>(door, word);
        was
    }
}
