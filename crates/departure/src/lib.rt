// The layer of departures: how far a state's people per seat are from the average, as an exact fraction, rounded to be shown,
// and marked.
#![tactic(auto)]

ghost use Rattle.std.specs.Prelude.{◌≡◌, ◌^◌, ◌<◌, nat_abs, pos, ◌-ℤ◌};
ghost use Rattle.apportionment.specs.Quantities.{at_most, shown_size, mark_of};
ghost use Rattle.apportionment.specs.Refusals.{refusal_of};
ghost use Rattle.departure.specs.inner.Exact.{Moderate, exact_of, shown, signed, size};
ghost use Rattle.departure.specs.Answer.{AnswerIs, departure_refusal};
ghost use Rattle.departure.specs.inner.Answer.{InLimits};

use apportionment::refusals::Refusal;
use apportionment::{HOUSE_LIMIT, Mark, SUM_LIMIT, outside};

// A departure, exactly: (p H - a P) / (a P), not reduced.
#[derive(Clone, Copy)]
pub struct Departure {
    pub numerator: i64,
    pub denominator: u64,
}

// The departure of a state with seats: as it is shown, and the mark of the exact one.
#[derive(Clone, Copy, Debug, PartialEq, Eq, Hash)]
pub struct Shown {
    pub shown: i64,
    pub mark: Mark,
}

// Departures are shown in thousandths of a per cent, of which so many make one whole.
const SHOWN_SCALE: u64 = 100_000;

impl Departure {
    pub const TEN_PERCENT: Departure = Departure {
        numerator: 10,
        denominator: 100,
    };

    pub const FIFTEEN_PERCENT: Departure = Departure {
        numerator: 15,
        denominator: 100,
    };

    // The departure of a state from its population and seats, the sum of populations and the house.
    pub fn of(population: u64, seats: u64, total: u64, house: u64) -> Departure
        requires { InLimits population seats total house }
        ensures { result ≡ exact_of population seats total house }
    {
        // People per seat against the average, p / a against P / H, multiplied by a H.
        let people = population * house;
        let average = seats * total;
        Departure {
            numerator: difference(people, average),
            denominator: average,
        }
    }

    // Is the size of this departure at most that of the other? Compared exactly, for any two.
    pub fn at_most(self, limit: Departure) -> bool
        ensures { result ≡ at_most (size self) (size limit) }
    {
        let own = wide::magnitude(self.numerator);
        let most = wide::magnitude(limit.numerator);
        !wide::product_less(most, self.denominator, own, limit.denominator)
    }

    // The mark of the exact size.
    pub fn mark(self) -> Mark
        ensures { result ≡ mark_of (size self) }
    {
        if self.at_most(Departure::TEN_PERCENT) {
            return Mark::In;
        }
        if self.at_most(Departure::FIFTEEN_PERCENT) {
            return Mark::High;
        }
        Mark::Over
    }

    // As it is shown: the nearest number of thousandths of a per cent; halves away from zero.
    pub fn shown(self) -> i64
        requires { Moderate (size self) }
        ensures { result ≡ shown self }
    {
        let numerator = self.numerator;
        let rounded = nearest(wide::magnitude(numerator), self.denominator);
        with_sign(numerator, rounded)
    }
}

// The departure operation; a state with 0 seats has no departure. Refused (30) if `total` or `house` is outside its limits, `population`
// is outside 1 to `total`, or `seats` is above `house`. The contract says which number, shown departure and mark an answer has, in the
// terms of `refusal_of`, `shown_in` and `mark_in`, and so leaves one answer.
pub fn departure_of(
    population: u64,
    seats: u64,
    total: u64,
    house: u64,
) -> Result<Option<Shown>, Refusal>
    ensures { AnswerIs population seats total house result }
{
    check_limits(population, seats, total, house)?;
    if seats == 0 {
        return Ok(None);
    }
    let exact = Departure::of(population, seats, total, house);
    Ok(Some(Shown {
        shown: exact.shown(),
        mark: exact.mark(),
    }))
}

// 30 for the first check that fails.
#[tactic(auto, unfolding(crate::specs::Answer::departure_refusal, apportionment::specs::Refusals::first_refusal))]
fn check_limits(population: u64, seats: u64, total: u64, house: u64) -> Result<(), Refusal>
    ensures { refusal_of result ≡ departure_refusal population seats total house }
{
    if outside(SUM_LIMIT, total)
        || outside(HOUSE_LIMIT, house)
        || outside(total, population)
        || house < seats
    {
        return Err(Refusal::DepartureOutOfLimits);
    }
    Ok(())
}

// The nearest number of thousandths of a per cent, halves up. The division goes in two stages, the whole part first, so that only a
// remainder is scaled. Keep it unsigned: at the limits the scaled remainder stays below 2^64, but not below 2^63.
fn nearest(over: u64, under: u64) -> u64
    requires { Moderate (record { over = over; under = under }) }
    ensures { result ≡ shown_size (record { over = over; under = under }) }
{
    let whole = over / under;
    let part = over % under;
    let scaled = part * SHOWN_SCALE;
    let down = whole * SHOWN_SCALE + scaled / under;
    let rest = scaled % under;
    if rest < under - rest { down } else { down + 1 }
}

// The signed edge, three small functions. The difference of two numbers:
fn difference(x: u64, y: u64) -> i64
    requires { (x < 2 ^ 63) × (y < 2 ^ 63) }
    ensures { result ≡ pos x -ℤ pos y }
{
    x as i64 - y as i64
}

// A number with the sign of another; zero stays zero.
fn with_sign(n: i64, size: u64) -> i64
    requires { size < 2 ^ 63 }
    ensures { result ≡ signed n size }
{
    if n < 0 { -(size as i64) } else { size as i64 }
}
