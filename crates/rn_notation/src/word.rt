//! The reserved words by name: each constant is the number of its word in `TokenKind::Word`.

/// `net`
pub const NET: u32 = 0;
/// `place`
pub const PLACE: u32 = 1;
/// `trans`
pub const TRANS: u32 = 2;
/// `channel`
pub const CHANNEL: u32 = 3;
/// `var`
pub const VAR: u32 = 4;
/// `in`
pub const IN: u32 = 5;
/// `out`
pub const OUT: u32 = 6;
/// `test`
pub const TEST: u32 = 7;
/// `reserve`
pub const RESERVE: u32 = 8;
/// `flexin`
pub const FLEXIN: u32 = 9;
/// `flexout`
pub const FLEXOUT: u32 = 10;
/// `inhibit`
pub const INHIBIT: u32 = 11;
/// `clear`
pub const CLEAR: u32 = 12;
/// `guard`
pub const GUARD: u32 = 13;
/// `action`
pub const ACTION: u32 = 14;
/// `print`
pub const PRINT: u32 = 15;
/// `new`
pub const NEW: u32 = 16;
/// `this`
pub const THIS: u32 = 17;
/// `int`
pub const INT: u32 = 18;
/// `text`
pub const TEXT: u32 = 19;
