//! Where a place stands: in an instance that is there, or in one that a creation makes.
ghost use Rattle.std.specs.Prelude.{◌≡◌, ◌∷◌, [], MatchOption, filter};
ghost use Rattle.rn_value.specs.Order.{inst_cmp};
ghost use Rattle.rn_arcs.specs.Demanded.{fill_place};
ghost use Rattle.rn_arcs.specs.link.Groups.{place_of};
ghost use Rattle.rn_arcs.specs.link.Joining.{Rising};
ghost use Rattle.rn_arcs.specs.Places.{place_cmp, is_at};
ghost use Rattle.rn_arcs.specs.link.Seats.{seat_inst};

use crate::asked::Asked;
use crate::demands::Fill;
use rn_value::{InstRef, Path};
use std::cmp::Ordering;

/// An instance that is there, by its number, or one that a creation makes, by the path of its node
/// and its index among that node's creations.
#[derive(Debug, Drop)]
pub(crate) enum Seat<'a> {
    There(u32),
    Made(&'a Path, usize),
}

impl Seat<'_> {
    /// How an instance stands to this one in the order.
    fn compare(&self, inst: &InstRef) -> Ordering
        ensures { result ≡ inst_cmp inst.now (seat_inst self.now) }
    {
        match (inst, self) {
            (InstRef::Old(n), Seat::There(number)) => n.cmp(number),
            (InstRef::Old(_), Seat::Made(_, _)) => Ordering::Less,
            (InstRef::New(_, _), Seat::There(_)) => Ordering::Greater,
            (InstRef::New(other, i), Seat::Made(path, index)) => {
                other.cmp(path).then((*i as usize).cmp(index))
            }
        }
    }

    /// How a place of an instance stands to a place of this one.
    fn compare_place(&self, number: usize, inst: &InstRef, place: u32) -> Ordering
        ensures { result ≡ place_cmp (inst.now, place) (seat_inst self.now, number) }
    {
        self.compare(inst).then((place as usize).cmp(&number))
    }

    /// What is asked of a place of this instance, by halving.
    pub(crate) fn asked<'b>(&self, number: usize, asked: &'b [Asked]) -> Option<&'b Asked>
        requires { Rising place_of asked.now }
        ensures { MatchOption result
            (filter (λ g. is_at (seat_inst self.now, number) (place_of g)) asked.now ≡ [])
            (λ g. filter (λ g. is_at (seat_inst self.now, number) (place_of g)) asked.now
            ≡ g.now ∷ []) }
    {
        match asked.binary_search_by(|g| self.compare_place(number, &g.inst, g.place)) {
            Ok(at) => Some(&asked[at]),
            Err(_) => None,
        }
    }

    /// How many tokens are put at a place of this instance, by halving.
    pub(crate) fn filled<'b>(&self, number: usize, fills: &'b [Fill]) -> Option<&'b Fill>
        requires { Rising fill_place fills.now }
        ensures { MatchOption result
            (filter (λ f. is_at (seat_inst self.now, number) (fill_place f)) fills.now ≡ [])
            (λ f. filter (λ f. is_at (seat_inst self.now, number) (fill_place f)) fills.now
            ≡ f.now ∷ []) }
    {
        match fills.binary_search_by(|f| self.compare_place(number, &f.inst, f.place)) {
            Ok(at) => Some(&fills[at]),
            Err(_) => None,
        }
    }
}
