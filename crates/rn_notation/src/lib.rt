//! From the bytes of a net text to its tokens.
#![tactic(auto)]

mod chars;
mod comments;
mod laws;
mod lexing;
pub mod limits;
mod numbers;
mod piece;
mod scanning;
pub mod sign;
mod spots;
mod texts;
mod token;
mod tokens;
pub mod word;
mod words;

pub use laws::{names_of_signs, names_of_words, token_laws};
pub use lexing::lex;
pub use token::{LexFault, Lexed, Spot, Token, TokenKind, TokenRef};
pub use tokens::Tokens;
