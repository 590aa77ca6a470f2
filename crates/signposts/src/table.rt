// The table of signposts: a row of five coefficients for each divisor method, and the only place where the code says what d(a) is.
ghost use Rattle.std.specs.Prelude.{◌≡◌, ◌≤◌};
ghost use Rattle.apportionment.specs.Divisor.{signpost};
ghost use Rattle.signposts.specs.inner.Claims.{held, seat_limit};
ghost use Rattle.signposts.specs.inner.Table.{row_signpost, RowFits};

use crate::Claim;
use apportionment::DivisorMethod;

// The row A, B, C, D, E stands for d(a) = (A a² + B a + C) / (D a + E). Hill's signpost is a square root, so its row gives the square.
const SIGNPOSTS: [[u64; 5]; 5] = [
    // Adams: a.
    [0, 1, 0, 0, 1],
    // Dean: 2 a (a + 1) / (2 a + 1).
    [2, 2, 0, 2, 1],
    // Hill: a (a + 1), the square.
    [1, 1, 0, 0, 1],
    // Webster: (2 a + 1) / 2.
    [0, 2, 1, 0, 2],
    // Jefferson: a + 1.
    [0, 1, 1, 0, 1],
];

// What a row stands for, at so many seats.
#[tactic(auto, using(crate::specs::inner::Table::line_at_most, crate::specs::inner::Table::quadratic_at_most))]
fn row_at(row: [u64; 5], seats: u64) -> Claim
    requires { RowFits row seats }
    ensures { result ≡ held (row_signpost row seats) }
{
    Claim {
        over: (row[0] * seats + row[1]) * seats + row[2],
        under: row[3] * seats + row[4],
    }
}

// The signpost d(a) of a method, Hill's squared: what its row stands for.
#[tactic(auto, unfolding(apportionment::specs::Lists::sum, apportionment::specs::Divisor::signpost))]
pub fn signpost_of(method: DivisorMethod, seats: u64) -> Claim
    requires { seats ≤ seat_limit }
    ensures { result ≡ held (signpost method seats) }
{
    let [adams, dean, hill, webster, jefferson] = SIGNPOSTS;
    match method {
        DivisorMethod::Adams => row_at(adams, seats),
        DivisorMethod::Dean => row_at(dean, seats),
        DivisorMethod::Hill => row_at(hill, seats),
        DivisorMethod::Webster => row_at(webster, seats),
        DivisorMethod::Jefferson => row_at(jefferson, seats),
    }
}
