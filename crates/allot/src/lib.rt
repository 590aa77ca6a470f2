// Allotting: the operation that the desk exists for. A method, a house, populations and a lent list for seats go in; the list holds the
// method's allotment, or is untouched where a refusal is given.
#![tactic(auto)]

ghost use Rattle.std.specs.Prelude.{◌≡◌, true, ◌≤◌, length};
ghost use Rattle.apportionment.specs.Allotment.{seats_every_state};
ghost use Rattle.apportionment.specs.inner.Problem.{Fillable};
ghost use Rattle.allot.specs.inner.Allot.{Filled};
ghost use Rattle.allot.specs.inner.Ways.{way_of};
ghost use Rattle.allot.specs.Allot.{AllotmentIs};

use apportionment::refusals::Refusal;
use apportionment::{DivisorMethod, Method};
use divisor::fill::fill_divisor;
use leximin::settle::fill_leximin;
use problem::{check_allotting, total_of};
use quota::fill_quota;
use remainders::fill_remainders;

// How a method allots: in a way of its own, or as a divisor method.
#[derive(Clone, Copy)]
pub enum Way {
    Leximin,
    Divisor(DivisorMethod),
    Remainders,
    Quota,
}

// The way of a method.
fn way_of(method: Method) -> Way
    ensures { result ≡ way_of method }
{
    match method {
        Method::Leximin => Way::Leximin,
        Method::Adams => Way::Divisor(DivisorMethod::Adams),
        Method::Dean => Way::Divisor(DivisorMethod::Dean),
        Method::Hill => Way::Divisor(DivisorMethod::Hill),
        Method::Webster => Way::Divisor(DivisorMethod::Webster),
        Method::Jefferson => Way::Divisor(DivisorMethod::Jefferson),
        Method::Remainders => Way::Remainders,
        Method::Quota => Way::Quota,
    }
}

// Fills in the method's seats, once the checks have passed; the answer is the steps.
fn fill_seats(method: Method, populations: &[u64], total: u64, house: u64, seats: &mut [u64]) -> u64
    requires { Fillable populations.now total house seats.old × (seats_every_state method ≡ true → length populations.now ≤ house) }
    ensures { Filled method populations.now house seats.new result }
{
    let way = way_of(method);
    match way {
        Way::Leximin => fill_leximin(populations, total, house, seats),
        Way::Divisor(divisor) => {
            fill_divisor(divisor, populations, total, house, seats);
            0
        }
        Way::Remainders => {
            fill_remainders(populations, total, house, seats);
            0
        }
        Way::Quota => {
            fill_quota(populations, total, house, seats);
            0
        }
    }
}

// Allots a house and answers the steps from the start to the house under leximin, 0 under the other methods: refusals 10 to 15 in this
// order, each given exactly when its check is the first to fail; a refusal leaves the seat list as it was and allots nothing.
pub fn allot(
    method: Method,
    house: u64,
    populations: &[u64],
    seats: &mut [u64],
) -> Result<u64, Refusal>
    ensures { AllotmentIs method house populations.now seats.old seats.new result }
{
    check_allotting(method, house, populations, seats.len())?;
    let total = total_of(populations);
    Ok(fill_seats(method, populations, total, house, seats))
}
