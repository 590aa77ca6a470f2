// Two claims compared by their quotients, where both are at or above the start or both below it.
ghost use Rattle.std.specs.Prelude.{◌≡◌, ◌+◌};
ghost use Rattle.apportionment.specs.Quantities.{less, size_of};
ghost use Rattle.claims.specs.inner.SizeClaims.{size_before};
ghost use Rattle.sizes.specs.inner.Sizes.{WithSeats};
ghost use Rattle.sizes.specs.inner.Quotients.{ClimbingClaim, FallingClaim};

use crate::{size_less, size_of};

// The state's size rises with one seat more.
fn rises(population: u64, seats: u64, total: u64, house: u64) -> bool
    requires { WithSeats population (seats + 1) total house }
    ensures { result ≡ less (size_of population seats total house) (size_of population (seats + 1) total house) }
{
    let present = size_of(population, seats, total, house);
    let next = size_of(population, seats + 1, total, house);
    size_less(present, next)
}

// Of two claims at or above the start, that of population p with a seats comes before that of q with b: level claims come first, then the
// larger quotient. The quotients are looked at first, since they leave at most one state's sizes to look at in nearly every case.
pub fn climbs_before(p: u64, a: u64, q: u64, b: u64, total: u64, house: u64) -> bool
    requires { ClimbingClaim p a total house × ClimbingClaim q b total house }
    ensures { result ≡ size_before total house p a q b }
{
    let own = p * (b + 1);
    let other = q * (a + 1);
    if other < own {
        return rises(q, b, total, house);
    }
    if own < other {
        if rises(p, a, total, house) {
            return false;
        }
        return rises(q, b, total, house);
    }
    let own_size = size_of(p, a, total, house);
    let other_size = size_of(q, b, total, house);
    size_less(other_size, own_size)
}

// Of two claims below the start, that of population p with a seats comes before that of q with b. It differs from `climbs_before` in each
// number and each answer, so no one function serves both.
pub fn falls_before(p: u64, a: u64, q: u64, b: u64, total: u64, house: u64) -> bool
    requires { FallingClaim p a total house × FallingClaim q b total house }
    ensures { result ≡ size_before total house p a q b }
{
    let own = p * b;
    let other = q * a;
    if other < own {
        return true;
    }
    if own < other {
        return false;
    }
    let own_size = size_of(p, a + 1, total, house);
    let other_size = size_of(q, b + 1, total, house);
    size_less(own_size, other_size)
}
