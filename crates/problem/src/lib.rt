// The checks that allotting and opening share: refusals 10 to 15 of document 01, each given when its check is the first to fail.
// Each check is a function of its own, true where it fails, and asks nothing of its caller, so that a desk may hand on whatever it was
// lent.
#![tactic(auto)]

ghost use Rattle.std.specs.Prelude.{◌≡◌};
ghost use Rattle.apportionment.specs.Allotment.{states_outside, house_outside, has_zero, sum_outside, seats_every_state, seats_too_few};
ghost use Rattle.apportionment.specs.Allotment.{allot_refusal, open_refusal};
ghost use Rattle.apportionment.specs.Refusals.{refusal_of};
ghost use Rattle.problem.specs.inner.Total.{capped_total};
ghost use Rattle.problem.specs.inner.Passed.{problem_refusal};

use apportionment::refusals::Refusal;
use apportionment::{HOUSE_LIMIT, Method, STATE_LIMIT, SUM_LIMIT, outside};

// 10: the number of states is outside its limits.
#[tactic(auto, unfolding(apportionment::specs::Allotment::states_outside))]
fn states_outside(populations: &[u64]) -> bool
    ensures { result ≡ states_outside populations.now }
{
    outside(STATE_LIMIT as u64, populations.len() as u64)
}

// 11: the house is outside its limits.
#[tactic(auto, unfolding(apportionment::specs::Allotment::house_outside))]
fn house_outside(house: u64) -> bool
    ensures { result ≡ house_outside house }
{
    outside(HOUSE_LIMIT, house)
}

// 12: some population is 0.
fn has_zero(populations: &[u64]) -> bool
    ensures { result ≡ has_zero populations.now }
{
    populations.contains(&0)
}

// The sum of the populations, or one more than the limit where the sum passes it. Any numbers at all may be given: what is left to
// the limit is compared before anything is added, so nothing wraps.
pub fn total_of(populations: &[u64]) -> u64
    ensures { result ≡ capped_total populations.now }
{
    let mut total: u64 = 0;
    for &p in populations {
        if SUM_LIMIT - total < p {
            return SUM_LIMIT + 1;
        }
        total += p;
    }
    total
}

// 13: the sum is too large.
fn sum_outside(populations: &[u64]) -> bool
    ensures { result ≡ sum_outside populations.now }
{
    SUM_LIMIT < total_of(populations)
}

// The method gives every state a seat.
fn seats_every_state(method: Method) -> bool
    ensures { result ≡ seats_every_state method }
{
    matches!(
        method,
        Method::Leximin | Method::Adams | Method::Dean | Method::Hill
    )
}

// 15: the house has fewer seats than there are states, under a method that gives each state one.
#[tactic(auto, unfolding(apportionment::specs::Allotment::seats_too_few))]
fn seats_too_few(method: Method, populations: &[u64], house: u64) -> bool
    ensures { result ≡ seats_too_few method populations.now house }
{
    seats_every_state(method) && house < populations.len() as u64
}

// The checks that allotting and opening share: 10, 11, 12 or 13.
pub fn check_problem(populations: &[u64], house: u64) -> Result<(), Refusal>
    ensures { refusal_of result ≡ problem_refusal populations.now house }
{
    if states_outside(populations) {
        return Err(Refusal::StatesOutOfLimits);
    }
    if house_outside(house) {
        return Err(Refusal::HouseOutOfLimits);
    }
    if has_zero(populations) {
        return Err(Refusal::PopulationZero);
    }
    if sum_outside(populations) {
        return Err(Refusal::SumTooLarge);
    }
    Ok(())
}

// The checks of allotting into a seat list of length `room`: 10 to 15.
pub fn check_allotting(
    method: Method,
    house: u64,
    populations: &[u64],
    room: usize,
) -> Result<(), Refusal>
    ensures { refusal_of result ≡ allot_refusal method house populations.now room }
{
    check_problem(populations, house)?;
    if room != populations.len() {
        return Err(Refusal::SeatListLength);
    }
    if seats_too_few(method, populations, house) {
        return Err(Refusal::HouseBelowStates);
    }
    Ok(())
}

// The checks of opening a placing: 10 to 13 and, as under leximin, 15.
pub fn check_opening(populations: &[u64], house: u64) -> Result<(), Refusal>
    ensures { refusal_of result ≡ open_refusal populations.now house }
{
    check_problem(populations, house)?;
    if seats_too_few(Method::Leximin, populations, house) {
        return Err(Refusal::HouseBelowStates);
    }
    Ok(())
}
