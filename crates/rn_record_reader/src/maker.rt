//! What makes an instance.
use rn_value::Path;

/// What makes an instance: the path of a node, and the number of a creation of its transition.
#[derive(Debug, Drop)]
pub(crate) struct Maker {
    pub(crate) path: Path,
    pub(crate) index: u8,
}
