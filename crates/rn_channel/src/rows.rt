//! The transitions of one net by the channel of their uplink.
ghost use Rattle.std.specs.Prelude.{◌≡◌, ◌++◌, ◌∷◌, [], ◌<◌, ◌^◌, ℕ, IfOk, OnOk, length, nat_eq, if◌then◌else◌};
ghost use Rattle.rn_channel.specs.link.Kept.{HasRows, looked_up};

use rn_items::{Items, NoMemory};
use rn_model::{Net, Nums};
use std::alloc::Global;
use std::collections::BTreeMap;

/// Numbers of transitions, ascending, by the channel of their uplink.
pub(crate) type Rows = BTreeMap<u32, Nums>;

// Puts one more transition after those of a channel.
fn put(alloc: Global, rows: &mut Rows, channel: u32, transition: u32) -> Result<(), NoMemory>
    ensures { OnOk result ((c : ℕ) → looked_up rows.new c
        ≡ (if nat_eq c channel then looked_up rows.old channel ++ transition ∷ [] else looked_up rows.old c)) }
{
    let mut row = match rows.remove(&channel) {
        Some(row) => row,
        None => Items::new(alloc),
    };
    row.push(transition)?;
    rows.insert(channel, row)?;
    Ok(())
}

/// The rows of a net.
pub(crate) fn rows_of(alloc: Global, net: &Net) -> Result<Rows, NoMemory>
    requires { length net.now.transitions < 2 ^ 32 }
    ensures { IfOk result (λ rows. HasRows rows net.now.transitions) }
{
    let mut rows = BTreeMap::new(alloc);
    for (i, transition) in net.transitions.as_slice().iter().enumerate() {
        if let Some(uplink) = &transition.uplink {
            put(alloc, &mut rows, uplink.channel, i as u32)?;
        }
    }
    Ok(rows)
}

/// The transitions of a channel.
pub(crate) fn row_of(rows: &Rows, channel: u32) -> &[u32]
    ensures { result.now ≡ looked_up rows.now channel }
{
    match rows.get(&channel) {
        Some(row) => row.as_slice(),
        None => &[],
    }
}
