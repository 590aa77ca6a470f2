// Which state moves first: takes the next seat where seats are placed, and gives one up where they are withdrawn. Many moves in turn are
// found by a tournament of the states (crate `claims`).
ghost use Rattle.std.specs.Prelude.{◌≡◌, true, false, length};
ghost use Rattle.claims.specs.inner.Order.{wants_before, gives_up_before};
ghost use Rattle.claims.specs.inner.SizeClaims.{size_test, one_each};
ghost use Rattle.leximin.specs.inner.Sided.{Sided, sided_props};
ghost use Rattle.leximin.specs.inner.Tournament.{Pair, moves_before};

use claims::tournament::Contest;
use sizes::quotients::{climbs_before, falls_before};

// States with seats on their way from the start: `up` where seats are placed. It is no enum, since the laws of both directions are stated
// once, for a truth value.
#[derive(Clone, Copy)]
pub struct Seating<'a> {
    pub up: bool,
    pub populations: &'a [u64],
    pub seats: &'a [u64],
    pub total: u64,
    pub house: u64,
    pub ghost sided: { Sided up populations.now total house seats.now } by { Prim.hlevel sided_props },
}

impl Seating<'_> {
    // State i's next claim comes before state j's.
    fn wants_before(&self, i: usize, j: usize) -> bool
        requires { (self.now.up ≡ true) × Pair self.now.populations.now i j }
        ensures { result ≡ wants_before (size_test self.now.populations.now self.now.house) self.now.seats.now i j }
    {
        climbs_before(
            self.populations[i],
            self.seats[i],
            self.populations[j],
            self.seats[j],
            self.total,
            self.house,
        )
    }

    // State i gives up a seat rather than state j: only with one to spare, and then unless its last claim comes before the other's.
    fn gives_up_before(&self, i: usize, j: usize) -> bool
        requires { (self.now.up ≡ false) × Pair self.now.populations.now i j }
        ensures { result ≡ gives_up_before one_each (size_test self.now.populations.now self.now.house) self.now.seats.now i j }
    {
        let a = self.seats[i];
        let b = self.seats[j];
        if a <= 1 {
            return false;
        }
        if b <= 1 {
            return true;
        }
        !falls_before(
            self.populations[i],
            a - 1,
            self.populations[j],
            b - 1,
            self.total,
            self.house,
        )
    }
}

impl Contest for Seating<'_> {
    ghost entrants = { λ s. length s.populations.now };

    // State i moves rather than state j.
    ghost before = { λ s. moves_before s.up s.populations.now s.house s.seats.now };

    fn entrants(&self) -> usize {
        self.populations.len()
    }

    #[tactic(auto, unfolding(claims::specs::inner::Moves::move_order))]
    fn comes_before(&self, i: usize, j: usize) -> bool {
        if self.up {
            return self.wants_before(i, j);
        }
        self.gives_up_before(i, j)
    }
}
