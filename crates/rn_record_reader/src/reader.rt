//! What the lines of a record are read by, as functions hand it on.
use rn_lookup::Directory;
use rn_model::System;

/// What the entries of a record are read by: its system, the directory of the names there, and the
/// format of the record.
#[derive(Clone, Copy)]
pub(crate) struct Reader<'a> {
    pub(crate) system: &'a System,
    pub(crate) directory: &'a Directory,
    pub(crate) format: u32,
}

/// What the end of a record and its marks are read by. `made` has the nets of the instances that
/// firings made, from number 1 on.
#[derive(Clone, Copy)]
pub(crate) struct EndReader<'a> {
    pub(crate) reader: Reader<'a>,
    pub(crate) made: &'a [u32],
}
