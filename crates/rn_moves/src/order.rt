//! The order of tokens.
ghost use Rattle.std.specs.Prelude.{IfOk};
ghost use Rattle.std.specs.List.Sorted.{IsSorted, IsPermutation};
ghost use Rattle.rn_moves.specs.Order.{token_cmp};
ghost use Rattle.rn_moves.specs.link.OrderLaws.{token_alike, token_cmp-total, token_cmp-ties};

use crate::token::{Token, Tokens};
use rn_items::{Items, NoMemory};
use std::cmp::Ordering;

impl Ord for Token {
    ghost cmp = { token_cmp };

    ghost total = { token_cmp-total };

    ghost matches_partial_cmp = { token_alike };

    ghost matches_eq = { token_cmp-ties };

    #[tactic(auto, using(crate::specs::link::OrderLaws::token_alike))]
    fn cmp(&self, other: &Self) -> Ordering {
        match self.partial_cmp(other) {
            Some(order) => order,
            None => unreachable!(),
        }
    }
}

/// The tokens in ascending order.
pub(crate) fn ascending(tokens: Vec<Token>) -> Result<Tokens, NoMemory>
    ensures sorted { IfOk result (λ sorted. IsSorted token_cmp sorted) }
    ensures same { IfOk result (λ sorted. IsPermutation tokens.items sorted) }
{
    let mut tokens = tokens;
    tokens.sort()?;
    Ok(Items::from_vec(tokens))
}
