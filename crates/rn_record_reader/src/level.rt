//! One step of the way to a node.
ghost use Rattle.std.specs.Prelude.{◌<◌, ◌+◌, ◌^◌};

/// One step of the way to the node that is due: its number among the downlinks of the node above,
/// and how many of these come after it.
#[derive(Clone, Copy, Debug, Drop)]
pub(crate) struct Level {
    pub(crate) index: u32,
    pub(crate) after: u32,
    ghost fits: { index + after < 2 ^ 32 },
}
