//! Reading tokens by a grammar: a cursor over tokens, and in `specs/` what reading a phrase is.
#![tactic(auto)]

mod cursor;
mod fault;
mod named;
mod texts;

pub use cursor::{
    expect_name, expect_number, expect_sign, expect_word, next, past_sign, past_word,
};
pub use fault::{ReadFault, TextFault};
pub use named::{Named, Numeral};
pub use texts::whole;
