// The scans: the state whose claim comes first of those not met takes a seat, or the one whose claim comes last of those met gives one up.
ghost use Rattle.std.specs.Prelude.{◌≡◌, IfSome, length};
ghost use Rattle.claims.specs.inner.Order.{first_unmet, last_met};
ghost use Rattle.claims.specs.inner.SizeClaims.{size_test, one_each};
ghost use Rattle.sizes.specs.inner.Sizes.{SmallClaim, WithSeats};
ghost use Rattle.leximin.specs.inner.Scan.{Bounded, better_candidate, GiverAt, better_giver, Seated};

use crate::house::House;
use sizes::{Claim, claim_less, claim_of};

// The best state of those looked at: its place and its claim.
#[derive(Clone, Copy)]
pub struct Candidate {
    pub place: usize,
    pub claim: Claim,
}

// A state that may give up a seat: its place and, if it has a seat to spare, the claim that its last seat met.
#[derive(Clone, Copy)]
pub struct Giver {
    pub place: usize,
    pub spare: Option<Claim>,
}

// The claim at `place` takes the best one's place only if it comes before it.
#[tactic(auto, unfolding(crate::specs::inner::Scan::better_candidate))]
fn better_candidate(best: Candidate, place: usize, claim: Claim) -> Candidate
    requires { SmallClaim best.claim × SmallClaim claim }
    ensures { result ≡ better_candidate best place claim }
{
    if claim_less(claim, best.claim) {
        return Candidate { place, claim };
    }
    best
}

fn giver_of(place: usize, population: u64, seats: u64, total: u64, house: u64) -> Giver
    requires { WithSeats population seats total house }
    ensures { GiverAt population seats total house place result }
{
    let spare = if 1 < seats {
        Some(claim_of(population, seats - 1, total, house))
    } else {
        None
    };
    Giver { place, spare }
}

// A state gives up a seat rather than the best one if it has one to spare and its last claim does not come before the best one's.
#[tactic(auto, unfolding(crate::specs::inner::Scan::better_giver))]
fn better_giver(best: Giver, next: Giver) -> Giver
    requires { IfSome best.spare SmallClaim × IfSome next.spare SmallClaim }
    ensures { result ≡ better_giver best next }
{
    match (best.spare, next.spare) {
        (_, None) => best,
        (Some(held), Some(claim)) if claim_less(claim, held) => best,
        (_, Some(_)) => next,
    }
}

impl House<'_> {
    // The state whose next claim comes first, the earliest of equals. No walk is shared with `last_met`: a closure for what is looked at
    // and one for what is better would be longer than both loops.
    pub fn first_unmet(&self, seats: &[u64]) -> usize
        requires { Bounded self.now.populations.now self.now.total self.now.house seats.now }
        ensures { result ≡ first_unmet (size_test self.now.populations.now self.now.house) (length self.now.populations.now) seats.now }
    {
        let claim = claim_of(self.populations[0], seats[0], self.total, self.house);
        let mut best = Candidate { place: 0, claim };
        for i in 1..self.populations.len() {
            let next = claim_of(self.populations[i], seats[i], self.total, self.house);
            best = better_candidate(best, i, next);
        }
        best.place
    }

    // The state whose last claim met comes last, the latest of equals.
    pub fn last_met(&self, seats: &[u64]) -> usize
        requires { Seated self.now.populations.now self.now.total self.now.house seats.now }
        ensures { result ≡ last_met one_each (size_test self.now.populations.now self.now.house) (length self.now.populations.now)
            seats.now }
    {
        let mut best = giver_of(0, self.populations[0], seats[0], self.total, self.house);
        for i in 1..self.populations.len() {
            let next = giver_of(i, self.populations[i], seats[i], self.total, self.house);
            best = better_giver(best, next);
        }
        best.place
    }
}
