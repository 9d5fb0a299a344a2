//! The call by which a node comes in, and its other side.
ghost use Rattle.rn_agree.specs.Paths.{AscendByPath};

use crate::applications::uplink_args;
use rn_agree::{child_index, node_index};
use rn_growing::Site;
use rn_model::{Binding, Downlink, Expr, Node, System, find_transition};

/// The caller of a node, given by its index, and the downlink that calls.
#[derive(Drop)]
pub(crate) struct Call<'a> {
    pub(crate) caller: usize,
    pub(crate) downlink: &'a Downlink,
}

/// The call of a node. The start has none.
pub(crate) fn call_of<'a>(system: &'a System, binding: &Binding, node: &Node) -> Option<Call<'a>>
    requires ascending { AscendByPath binding.now.nodes }
{
    let (i, front) = node.path.as_slice().split_last()?;
    let caller = node_index(binding, front)?;
    let transition = find_transition(system, binding.nodes.get(caller)?)?;
    let downlink = transition.downlinks.get(*i as usize)?;
    Some(Call { caller, downlink })
}

/// The other side of the equation in which a site of a node stands, with the index of its node.
pub(crate) fn across<'a>(
    system: &'a System,
    binding: &Binding,
    node: &Node,
    n: usize,
    site: Site,
) -> Option<(usize, &'a Expr)>
    requires ascending { AscendByPath binding.now.nodes }
{
    let transition = find_transition(system, node)?;
    match site {
        Site::Left(k) => {
            let (_, right) = transition.equalities.get(k)?;
            Some((n, right))
        }
        Site::Right(k) => {
            let (left, _) = transition.equalities.get(k)?;
            Some((n, left))
        }
        Site::UplinkArg(k) => {
            let call = call_of(system, binding, node)?;
            Some((call.caller, call.downlink.args.get(k)?))
        }
        Site::DownlinkArg(i, k) => {
            let i = u32::try_from(i).ok()?;
            let child = child_index(binding, node.path.as_slice(), i)?;
            let answer = find_transition(system, binding.nodes.get(child)?)?;
            Some((child, uplink_args(answer).get(k)?))
        }
        Site::Target(_) | Site::Inscription(_) => None,
    }
}

/// The part of an expression to which a way leads, as far as there are brackets.
pub(crate) fn part_on<'a>(expr: &'a Expr, way: &[usize]) -> &'a Expr {
    let mut part = expr;
    for i in way {
        let inner = match part {
            Expr::Tuple(parts) => parts.get(*i),
            Expr::List(parts) => parts.get(*i),
            Expr::Cons(parts, tail) => match parts.get(*i) {
                Some(inner) => Some(inner),
                None => Some(tail.get()),
            },
            _ => None,
        };
        let Some(inner) = inner else {
            return part;
        };
        part = inner;
    }
    part
}
