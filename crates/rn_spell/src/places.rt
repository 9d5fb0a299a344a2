//! Nodes in the order of their paths, and the place of one of them by halving.
ghost use Rattle.std.specs.Prelude.{◌≡◌, ◌+◌, ◌<◌, IfSome, IfNone, IsTrue, length, take, drop};
ghost use Rattle.std.specs.Ordering.{nat_cmp};
ghost use Rattle.std.specs.Cmp.Lexicographic.{slice_cmp};
ghost use Rattle.rn_spell.specs.link.Marks.{AscendByPath, OtherPaths};

use rn_model::Node;
use std::cmp::Ordering;

/// Whether each path is below the next one.
pub(crate) fn ascend(nodes: &[Node]) -> bool
    ensures { IsTrue result → AscendByPath nodes.now }
{
    for k in 1..nodes.len() {
        let path = nodes[k - 1].path.as_slice();
        if !path.cmp(nodes[k].path.as_slice()).is_lt() {
            return false;
        }
    }
    true
}

/// The place of the node of this path.
pub(crate) fn place_of(nodes: &[Node], path: &[u32]) -> Option<usize>
    requires { AscendByPath nodes.now }
    ensures none { IfNone result (OtherPaths path.now nodes.now) }
    ensures within { IfSome result (λ k. k < length nodes.now) }
    ensures before { IfSome result (λ k. OtherPaths path.now (take k nodes.now)) }
    ensures behind { IfSome result (λ k. OtherPaths path.now (drop (k + 1) nodes.now)) }
{
    let found = nodes.binary_search_by(|node| compare_path(node, path));
    found.ok()
}

fn compare_path(node: &Node, path: &[u32]) -> Ordering
    ensures { result ≡ slice_cmp nat_cmp node.now.path path.now }
{
    node.path.as_slice().cmp(path)
}
