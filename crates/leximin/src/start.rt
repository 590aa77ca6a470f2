// The start: each state's nearest seats.
ghost use Rattle.std.specs.Prelude.{◌≡◌};
ghost use Rattle.claims.specs.inner.SizeClaims.{nearest_rounded};
ghost use Rattle.sizes.specs.inner.Sizes.{State};
ghost use Rattle.apportionment.specs.inner.Problem.{Problem, Fillable};
ghost use Rattle.apportionment.specs.Lists.{same_list};
ghost use Rattle.leximin.specs.inner.Start.{Begun};
ghost use Rattle.apportionment.specs.Leximin.{start_seats, start_total};

use crate::house::House;
use sizes::{size_less, size_of};

impl House<'_> {
    // The seats nearest to p H / P: its whole part or one more, at least 1, the fewer where two are equally near.
    pub fn nearest_seats(&self, population: u64) -> u64
        requires { State population self.now.total self.now.house }
        ensures { result ≡ nearest_rounded population self.now.total self.now.house }
    {
        let whole = population * self.house / self.total;
        if whole == 0 {
            return 1;
        }
        let more = size_of(population, whole + 1, self.total, self.house);
        let fewer = size_of(population, whole, self.total, self.house);
        if size_less(more, fewer) {
            return whole + 1;
        }
        whole
    }

    // Fills the seat list with each state's nearest seats.
    fn fill_nearest(&self, seats: &mut [u64])
        requires { Fillable self.now.populations.now self.now.total self.now.house seats.old }
        ensures { seats.new ≡ start_seats self.now.populations.now self.now.house }
    {
        for (i, population) in self.populations.iter().enumerate() {
            seats[i] = self.nearest_seats(*population);
        }
    }

    // Fills the seat list with the start, and adds it up: the starting total L.
    pub fn fill_start(&self, seats: &mut [u64]) -> u64
        requires { Fillable self.now.populations.now self.now.total self.now.house seats.old }
        ensures { Begun self.now.populations.now self.now.house seats.new result }
    {
        self.fill_nearest(seats);
        problem::total_of(seats)
    }

    // The starting total alone: every state's nearest seats added up.
    pub fn start_total(&self) -> u64
        requires { Problem self.now.populations.now self.now.total self.now.house }
        ensures { result ≡ start_total self.now.populations.now self.now.house }
    {
        let mut sum = 0;
        for population in self.populations {
            sum += self.nearest_seats(*population);
        }
        sum
    }

    // The seats are each state's nearest.
    pub fn is_start(&self, seats: &[u64]) -> bool
        requires { Fillable self.now.populations.now self.now.total self.now.house seats.now }
        ensures { result ≡ same_list seats.now (start_seats self.now.populations.now self.now.house) }
    {
        for (i, population) in self.populations.iter().enumerate() {
            if seats[i] != self.nearest_seats(*population) {
                return false;
            }
        }
        true
    }
}
