// Which state moves first: is given the next seat where seats are placed (`up`), gives one up where they are withdrawn.
ghost use Rattle.std.specs.Prelude.{◌≡◌, ◌<◌, length};
ghost use Rattle.claims.specs.inner.Order.{wants_before, gives_up_before};
ghost use Rattle.claims.specs.inner.DivisorClaims.{method_test};
ghost use Rattle.signposts.specs.inner.Order.{ClaimsFit, MovesFirst, moves_before, no_fewest};

use crate::{claim_less, claim_of};
use apportionment::DivisorMethod;
use claims::tournament::Contest;

// States with the seats that they have, and how they move by a method: `up` where seats are placed. An enum for the direction would be no
// plainer: every law speaks of both directions at once by a truth value, into which each clause would have to turn it.
#[derive(Clone, Copy)]
pub struct Seating<'a> {
    pub method: DivisorMethod,
    pub up: bool,
    pub populations: &'a [u64],
    pub seats: &'a [u64],
    pub ghost claims_fit: { ClaimsFit populations.now seats.now },
}

impl Seating<'_> {
    // State i's next claim comes before state j's.
    #[tactic(auto, using(crate::specs::inner::Order::compared), unfolding(claims::specs::inner::Order::wants_before))]
    fn wants_before(&self, i: usize, j: usize) -> bool
        requires { (i < length self.now.populations.now) × (j < length self.now.populations.now) }
        ensures { result ≡ wants_before (method_test self.now.method self.now.populations.now) self.now.seats.now i j }
    {
        let own = claim_of(self.method, self.populations[i], self.seats[i]);
        let other = claim_of(self.method, self.populations[j], self.seats[j]);
        claim_less(own, other)
    }

    // State i has a seat to give up, and state j has none or had its last seat no later.
    #[tactic(auto, using(crate::specs::inner::Order::compared), unfolding(claims::specs::inner::Order::gives_up_before))]
    fn gives_up_before(&self, i: usize, j: usize) -> bool
        requires { (i < length self.now.populations.now) × (j < length self.now.populations.now) }
        ensures { result ≡ gives_up_before no_fewest (method_test self.now.method self.now.populations.now) self.now.seats.now i j }
    {
        let own_seats = self.seats[i];
        if own_seats == 0 {
            return false;
        }
        let other_seats = self.seats[j];
        if other_seats == 0 {
            return true;
        }
        let own = claim_of(self.method, self.populations[i], own_seats - 1);
        let other = claim_of(self.method, self.populations[j], other_seats - 1);
        !claim_less(own, other)
    }

    // The state that moves first, by going through all.
    #[tactic(auto, using(crate::specs::inner::Order::scans), unfolding(apportionment::specs::Lists::first_place))]
    pub fn first_to_move(&self) -> usize
        ensures { MovesFirst self.now.method self.now.up self.now.populations.now self.now.seats.now result }
    {
        let mut best = 0;
        for i in 1..self.populations.len() {
            best = self.better_of(best, i);
        }
        best
    }
}

impl Contest for Seating<'_> {
    ghost entrants = { λ s. length s.populations.now };

    // State i moves before state j.
    ghost before = { λ s. moves_before s.method s.up s.populations.now s.seats.now };

    fn entrants(&self) -> usize {
        self.populations.len()
    }

    #[tactic(auto, unfolding(claims::specs::inner::Moves::move_order))]
    fn comes_before(&self, i: usize, j: usize) -> bool {
        if self.up {
            return self.wants_before(i, j);
        }
        self.gives_up_before(i, j)
    }
}
