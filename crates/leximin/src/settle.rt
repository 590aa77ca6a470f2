// The whole leximin allotment of a house, and the test that seats are leximin for their total.
ghost use Rattle.std.specs.Prelude.{◌≡◌, true, false, cond, ◌≤◌, ltb, length};
ghost use Rattle.apportionment.specs.inner.Problem.{Fillable};
ghost use Rattle.claims.specs.inner.Order.{ends_apart};
ghost use Rattle.claims.specs.inner.SizeClaims.{size_test, one_each};
ghost use Rattle.sizes.specs.inner.Sizes.{SmallClaim, less_claim};
ghost use Rattle.leximin.specs.inner.Scan.{Seated};
ghost use Rattle.leximin.specs.inner.Settled.{Settled};

use crate::house::House;
use sizes::{Claim, claim_less, claim_of};

// Fills the seat list with the leximin allotment of the house, from the start by single moves; the answer is how many there were.
pub fn fill_leximin(populations: &[u64], total: u64, house: u64, seats: &mut [u64]) -> u64
    requires { Fillable populations.now total house seats.old × (length populations.now ≤ house) }
    ensures { Settled populations.now house seats.new result }
{
    let own = House {
        populations,
        total,
        house,
    };
    let start = own.fill_start(seats);
    if start < house {
        own.move_times(true, seats, house - start);
        return house - start;
    }
    own.move_times(false, seats, start - house);
    start - house
}

// The own claim, of state i, comes before the other, of state j; of equal claims, the earlier state's.
fn comes_before(own: Claim, i: usize, other: Claim, j: usize) -> bool
    requires { SmallClaim own × SmallClaim other }
    ensures { result ≡ cond (less_claim own other) true (cond (less_claim other own) false (ltb i j)) }
{
    if claim_less(own, other) {
        return true;
    }
    if claim_less(other, own) {
        return false;
    }
    i < j
}

impl House<'_> {
    // The last claim met comes before the first one not met: seats for which this holds are leximin for their total.
    pub fn ends_apart(&self, seats: &[u64]) -> bool
        requires { Seated self.now.populations.now self.now.total self.now.house seats.now }
        ensures { result ≡ ends_apart one_each (size_test self.now.populations.now self.now.house) (length self.now.populations.now)
            seats.now }
    {
        let i = self.last_met(seats);
        let j = self.first_unmet(seats);
        if seats[i] <= 1 {
            return true;
        }
        let met = claim_of(self.populations[i], seats[i] - 1, self.total, self.house);
        let unmet = claim_of(self.populations[j], seats[j], self.total, self.house);
        comes_before(met, i, unmet, j)
    }
}
