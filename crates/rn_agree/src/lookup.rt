//! The nodes of a binding by their paths.
ghost use Rattle.std.specs.Prelude.{◌≡◌, ◌<◌, ◌++◌, ◌∷◌, [], IfSome, Contains, length, slice_get};
ghost use Rattle.std.specs.Prelude.{option_and_then, option_copied};
ghost use Rattle.std.specs.Ordering.{nat_cmp};
ghost use Rattle.std.specs.Cmp.Lexicographic.{slice_cmp};
ghost use Rattle.rn_model.specs.Bindings.{node_at};
ghost use Rattle.rn_agree.specs.Paths.{AscendByPath};

use rn_model::{Binding, Node};
use std::cmp::Ordering;

fn compare_path(node: &Node, path: &[u32]) -> Ordering
    ensures { result ≡ slice_cmp nat_cmp node.now.path path.now }
{
    node.path.as_slice().cmp(path)
}

// How a node's path compares with the one that goes on from `parent` by `i`.
fn compare_child(node: &Node, parent: &[u32], i: u32) -> Ordering
    ensures { result ≡ slice_cmp nat_cmp node.now.path (parent.now ++ i ∷ []) }
{
    let path = node.path.as_slice();
    if path.len() < parent.len() {
        return path.cmp(parent);
    }
    let (front, back) = path.split_at(parent.len());
    front.cmp(parent).then(back.cmp([i].as_slice()))
}

/// The index of the node on this path, by halving.
pub fn node_index(binding: &Binding, path: &[u32]) -> Option<usize>
    requires ascending { AscendByPath binding.now.nodes }
    ensures within { IfSome result (λ k. k < length binding.now.nodes) }
    ensures node { node_at binding.now path.now ≡ option_and_then
        (slice_get binding.now.nodes) result }
{
    let nodes = binding.nodes.as_slice();
    let found = nodes.binary_search_by(|node| compare_path(node, path));
    found.ok()
}

/// The index of the child by downlink `i` of the node on the path `parent`, by halving.
pub fn child_index(binding: &Binding, parent: &[u32], i: u32) -> Option<usize>
    requires ascending { AscendByPath binding.now.nodes }
    ensures within { IfSome result (λ k. k < length binding.now.nodes) }
    ensures node { node_at binding.now (parent.now ++ i ∷ []) ≡ option_and_then
        (slice_get binding.now.nodes) result }
{
    let nodes = binding.nodes.as_slice();
    let found = nodes.binary_search_by(|node| compare_child(node, parent, i));
    found.ok()
}

/// The node on this path.
pub fn node_on<'a>(binding: &'a Binding, path: &[u32]) -> Option<&'a Node>
    requires ascending { AscendByPath binding.now.nodes }
    ensures node { option_copied result ≡ node_at binding.now path.now }
    ensures there { IfSome result (λ node. Contains binding.now.nodes node.now) }
{
    binding.nodes.get(node_index(binding, path)?)
}

/// The child by downlink `i` of the node on the path `parent`.
pub fn child_on<'a>(binding: &'a Binding, parent: &[u32], i: u32) -> Option<&'a Node>
    requires ascending { AscendByPath binding.now.nodes }
    ensures node { option_copied result ≡ node_at binding.now (parent.now ++ i ∷ []) }
    ensures there { IfSome result (λ node. Contains binding.now.nodes node.now) }
{
    binding.nodes.get(child_index(binding, parent, i)?)
}
