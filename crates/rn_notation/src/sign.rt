//! The signs by name: each constant is the number of its sign in `TokenKind::Sign`.

/// `{`
pub const LEFT_BRACE: u32 = 0;
/// `}`
pub const RIGHT_BRACE: u32 = 1;
/// `[`
pub const LEFT_BRACKET: u32 = 2;
/// `]`
pub const RIGHT_BRACKET: u32 = 3;
/// `(`
pub const LEFT_PAREN: u32 = 4;
/// `)`
pub const RIGHT_PAREN: u32 = 5;
/// `,`
pub const COMMA: u32 = 6;
/// `;`
pub const SEMICOLON: u32 = 7;
/// `:`
pub const COLON: u32 = 8;
/// `=`
pub const EQUALS: u32 = 9;
/// `==`
pub const SAME: u32 = 10;
/// `!=`
pub const DIFFERS: u32 = 11;
/// `<`
pub const LESS: u32 = 12;
/// `<=`
pub const AT_MOST: u32 = 13;
/// `>`
pub const GREATER: u32 = 14;
/// `>=`
pub const AT_LEAST: u32 = 15;
/// `+`
pub const PLUS: u32 = 16;
/// `-`
pub const MINUS: u32 = 17;
/// `*`
pub const STAR: u32 = 18;
/// `/`
pub const SLASH: u32 = 19;
/// `%`
pub const PERCENT: u32 = 20;
/// `&&`
pub const AND: u32 = 21;
/// `||`
pub const OR: u32 = 22;
/// `!`
pub const NOT: u32 = 23;
