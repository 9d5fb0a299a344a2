//! How the lines of a place begin.
ghost use Rattle.std.specs.Prelude.{◌≡◌, ◌++◌, IfOk, IfSome, OnOk};
ghost use Rattle.rn_moves.specs.link.Connecting.{IsLead};
ghost use Rattle.rn_moves.specs.MovesText.{place_text};

use crate::naming::net_numbered;
use crate::token::Token;
use crate::writer::Writer;
use rn_items::NoMemory;
use rn_model::{System, write_instance};
use rn_record::put_place_name;
use rn_value::write_numeral;
use std::alloc::Global;

/// The beginning of the lines of one place of an instance, as `3 + cup[2].tea `.
#[derive(Drop)]
pub(crate) struct Lead {
    pub(crate) inst: u32,
    pub(crate) place: u32,
    pub(crate) text: Vec<u8>,
}

fn put_place(
    alloc: Global,
    system: &System,
    nets: &[u32],
    token: &Token,
    out: &mut Vec<u8>,
) -> Result<(), NoMemory>
    ensures { OnOk result (out.new.items ≡ out.old.items ++ place_text system.now nets.now token.now) }
{
    let net = net_numbered(nets, token.inst);
    write_instance(alloc, system, net, token.inst, out)?;
    out.extend_from_slice(b".")?;
    put_place_name(system, net, token.place, out)
}

/// How the lines of the place of this token begin.
fn new_lead(
    alloc: Global,
    by: Writer<'_>,
    step: u64,
    sign: &[u8],
    token: &Token,
) -> Result<Lead, NoMemory>
    ensures inst { IfOk result (λ lead. lead.inst ≡ token.now.inst) }
    ensures place { IfOk result (λ lead. lead.place ≡ token.now.place) }
    ensures text { IfOk result (IsLead by.entry.system.now by.entry.nets.now step sign.now) }
{
    let mut text = Vec::new(alloc);
    write_numeral(alloc, step, &mut text)?;
    text.extend_from_slice(sign)?;
    put_place(alloc, by.system, by.nets, token, &mut text)?;
    text.extend_from_slice(b" ")?;
    Ok(Lead {
        inst: token.inst,
        place: token.place,
        text,
    })
}

/// The same, by the beginning at hand where the place is still that one.
pub(crate) fn lead_at(
    alloc: Global,
    by: Writer<'_>,
    step: u64,
    sign: &[u8],
    token: &Token,
    lead: Option<Lead>,
) -> Result<Lead, NoMemory>
    requires { IfSome lead (IsLead by.system.now by.nets.now step sign.now) }
    ensures inst { IfOk result (λ lead. lead.inst ≡ token.now.inst) }
    ensures place { IfOk result (λ lead. lead.place ≡ token.now.place) }
    ensures text { IfOk result (IsLead by.entry.system.now by.entry.nets.now step sign.now) }
{
    if let Some(lead) = lead {
        if lead.inst == token.inst && lead.place == token.place {
            return Ok(lead);
        }
    }
    new_lead(alloc, by, step, sign, token)
}
