// Rounding: every p A / P rounded by the method's own signposts, for a house A near the one asked for.
ghost use Rattle.std.specs.Prelude.{◌≡◌, ◌≤◌, length};
ghost use Rattle.apportionment.specs.inner.Problem.{States};
ghost use Rattle.claims.specs.inner.DivisorClaims.{rounded};
ghost use Rattle.signposts.specs.inner.Claims.{aim_limit};
ghost use Rattle.divisor.specs.inner.Rounding.{ShareFits, Filled};

use apportionment::DivisorMethod;
use signposts::{Claim, claim_less, claim_of, weight_of};

// The populations whose shares a method rounds, and their sum P.
#[derive(Clone, Copy)]
pub struct Rounding<'a> {
    pub method: DivisorMethod,
    pub populations: &'a [u64],
    pub total: u64,
}

impl Rounding<'_> {
    // The seats of one state: the whole part of p A / P, and one more unless the claim there passes the average.
    fn rounded_of(self, population: u64, aim: u64) -> u64
        requires { ShareFits population self.total aim }
        ensures { result ≡ rounded self.entry.method self.entry.total aim population }
    {
        let whole = population * aim / self.total;
        let average = Claim {
            over: weight_of(self.method, aim),
            under: weight_of(self.method, self.total),
        };
        let claim = claim_of(self.method, population, whole);
        if claim_less(average, claim) {
            return whole;
        }
        whole + 1
    }

    // Fills in the rounded seats, and hands back how many they are.
    pub fn fill_rounded(self, aim: u64, seats: &mut [u64]) -> u64
        requires { States self.populations.now self.total × (length seats.old ≡ length self.populations.now)
            × (aim ≤ aim_limit) }
        ensures { Filled self.entry.method self.entry.populations.now aim seats.new result }
    {
        let mut given = 0;
        for (i, &population) in self.populations.iter().enumerate() {
            let own = self.rounded_of(population, aim);
            seats[i] = own;
            given += own;
        }
        given
    }
}
