// The allotment: rounded seats, then one seat after another placed or withdrawn until the house is met.
ghost use Rattle.std.specs.Prelude.{◌≡◌, ◌*◌, ◌≤◌};
ghost use Rattle.apportionment.specs.Limits.{house_limit, state_limit};
ghost use Rattle.apportionment.specs.Divisor.{divisor_seats};
ghost use Rattle.apportionment.specs.inner.Problem.{Fillable};
ghost use Rattle.signposts.specs.inner.Claims.{aim_limit};
ghost use Rattle.divisor.specs.inner.Steps.{Started};

use crate::moves::Movement;
use crate::rounding::Rounding;
use apportionment::DivisorMethod;

// Rounding again costs about as much as so many moves, and as one more for every so many states: it goes through all of them, and a move
// of a tournament through a few.
const MOVES_AT_LEAST: u64 = 4;

const STATES_A_MOVE: u64 = 16;

// The house to aim at once rounding for `house` has given so many seats: moved by what was lacking or too much.
fn aim_of(house: u64, given: u64) -> u64
    requires { house ≤ house_limit }
    ensures { result ≤ 2 * house }
{
    (2 * house).saturating_sub(given)
}

// Is rounding again likely to cost more than the moves that it saves? So where the house to aim at is near; and where no state was given
// a seat, as where all are of one size, rounding again would as soon give every state one.
fn near(states: usize, given: u64, house: u64, aim: u64) -> bool
    requires { (states ≤ state_limit) × (house ≤ house_limit) × (aim ≤ aim_limit) }
{
    let way = MOVES_AT_LEAST + states as u64 / STATES_A_MOVE;
    given == 0 || (aim <= house + way && house < aim + way)
}

// Fills in rounded seats, and hands back how many they are: rounded for the house or, where that is far off, as it is by about half a
// seat a state under Adams and Jefferson, for the house to aim at.
fn fill_near(rounding: Rounding<'_>, house: u64, seats: &mut [u64]) -> u64
    requires { Fillable rounding.populations.now rounding.total house seats.old }
    ensures { Started rounding.entry.method rounding.entry.populations.now seats.new result }
{
    let given = rounding.fill_rounded(house, seats);
    let aim = aim_of(house, given);
    if near(rounding.populations.len(), given, house, aim) {
        return given;
    }
    rounding.fill_rounded(aim, seats)
}

// Fills in the seats that a divisor method gives: claims met in order, as many as the house has seats. What rounding left lacking or
// too much is placed or withdrawn, a few seats whatever the house.
pub fn fill_divisor(
    method: DivisorMethod,
    populations: &[u64],
    total: u64,
    house: u64,
    seats: &mut [u64],
)
    requires { Fillable populations.now total house seats.old }
    ensures { seats.new ≡ divisor_seats method populations.now house }
{
    let rounding = Rounding {
        method,
        populations,
        total,
    };
    let given = fill_near(rounding, house, seats);
    let up = given <= house;
    let movement = Movement {
        method,
        up,
        populations,
    };
    movement.make_moves(house.abs_diff(given), seats);
}
