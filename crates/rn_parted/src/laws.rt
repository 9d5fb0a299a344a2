//! Laws over places that part the bindings of an instance, the contract of a function that does
//! nothing.
ghost use Rattle.rn_parted.specs.Laws.{BindingsAreParted, PartsStay};

/// Where a place parts them, a binding that starts in an instance is enabled exactly where it is
/// with no token in that place, or with one of its tokens alone. And where the instance then refers
/// to none that may reach a changed one, the same of them are enabled before and after.
pub fn bindings_are_parted()
    ensures parted { BindingsAreParted }
    ensures stay { PartsStay }
{}
