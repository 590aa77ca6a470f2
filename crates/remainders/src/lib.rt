// Largest remainders: each state has its whole part, and those of the highest precedence the seats that are left.
#![tactic(auto)]

ghost use Rattle.std.specs.Prelude.{◌≡◌, length};
ghost use Rattle.apportionment.specs.Remainders.{remainder_seats};
ghost use Rattle.apportionment.specs.inner.Problem.{Fillable};
ghost use Rattle.remainders.specs.inner.Precedence.{precedence_of, Share, with_extra};
ghost use Rattle.remainders.specs.inner.Serving.{extra_by, spare_after};
ghost use Rattle.bar.specs.inner.Search.{Searchable};
ghost use Rattle.remainders.specs.inner.Seats.{Filled, HasRoom, RoomFrom, ServedTo, served_from, served};

use apportionment::{STATE_LIMIT, SUM_LIMIT};
use bar::bar_of;
use std::cmp::{max, min};

// What a remainder counts in a precedence: more than any population.
const REMAINDER_WEIGHT: u64 = SUM_LIMIT + 1;

// The number by which states are served with the seats that are left, the larger first, for a state of this population and whole part: its
// remainder and, among equal ones, its population. This function alone says what a precedence is.
fn precedence(population: u64, whole: u64, total: u64, house: u64) -> u64
    requires { Share population whole total house }
    ensures { result ≡ precedence_of population total house }
{
    let remainder = population * house - whole * total;
    remainder * REMAINDER_WEIGHT + population
}

// What filling hands back: the seats given as whole parts, and the least and the greatest precedence.
#[derive(Clone, Copy)]
struct Parts {
    given: u64,
    least: u64,
    greatest: u64,
}

// Gives each state its whole part, and works out its precedence while the share is at hand.
fn fill_parts(
    populations: &[u64],
    total: u64,
    house: u64,
    precedences: &mut [u64],
    seats: &mut [u64],
) -> Parts
    requires fillable { Fillable populations.now total house seats.old }
    requires precedences_len { length precedences.old ≡ length populations.now }
    ensures { Filled populations.now house precedences.new seats.new result }
{
    let mut given: u64 = 0;
    let mut least = u64::MAX;
    let mut greatest: u64 = 0;
    for (i, &population) in populations.iter().enumerate() {
        let whole = population * house / total;
        let own = precedence(population, whole, total, house);
        seats[i] = whole;
        precedences[i] = own;
        given += whole;
        least = min(least, own);
        greatest = max(greatest, own);
    }
    Parts {
        given,
        least,
        greatest,
    }
}

// The seat beyond its whole part of a state of precedence `own`, with `spare` seats for those at the bar.
fn extra_seat(own: u64, bar: u64, spare: u64) -> u64
    ensures { result ≡ extra_by own bar spare }
{
    if bar < own {
        return 1;
    }
    if own < bar {
        return 0;
    }
    if 0 < spare {
        return 1;
    }
    0
}

// The seats to spare after it.
fn spare_after(own: u64, bar: u64, spare: u64) -> u64
    ensures { result ≡ spare_after own bar spare }
{
    if own == bar {
        spare.saturating_sub(1)
    } else {
        spare
    }
}

// Serves the states in register order until no seat is to spare, and answers the place reached.
fn serve_spare(precedences: &[u64], bar: u64, spare: u64, seats: &mut [u64]) -> usize
    requires { HasRoom precedences.now seats.old }
    ensures { ServedTo precedences.now bar spare seats.old result seats.new }
{
    let mut rest = spare;
    for (i, &own) in precedences.iter().enumerate() {
        if rest == 0 {
            return i;
        }
        seats[i] += extra_seat(own, bar, rest);
        rest = spare_after(own, bar, rest);
    }
    precedences.len()
}

// Serves the states from a place on, with no seat to spare: apart from `serve_spare`, since no place here waits for the one before it.
fn serve_above(precedences: &[u64], bar: u64, from: usize, seats: &mut [u64])
    requires { RoomFrom precedences.now from seats.old }
    ensures { seats.new ≡ served_from precedences.now bar from seats.old }
{
    for i in from..precedences.len() {
        seats[i] += extra_seat(precedences[i], bar, 0);
    }
}

// Adds to each state's seats what it has beyond its whole part; equal precedences are served in register order.
fn serve(precedences: &[u64], bar: u64, spare: u64, seats: &mut [u64])
    requires { HasRoom precedences.now seats.old }
    ensures { seats.new ≡ served precedences.now bar spare seats.old }
{
    let place = serve_spare(precedences, bar, spare, &mut seats[..]);
    serve_above(precedences, bar, place, seats);
}

// Gives the seats that are left to those of the highest precedence.
fn give_left(precedences: &[u64], left: u64, least: u64, greatest: u64, seats: &mut [u64])
    requires searchable { Searchable precedences.now left least greatest }
    requires has_room { HasRoom precedences.now seats.old }
    ensures { seats.new ≡ with_extra precedences.now left seats.old }
{
    let found = bar_of(precedences, left, least, greatest);
    serve(precedences, found.low, left - found.above, seats);
}

// Fills `seats` with the allotment of largest remainders, with room for the precedences lent by the caller.
fn fill_with_room(
    populations: &[u64],
    total: u64,
    house: u64,
    precedences: &mut [u64],
    seats: &mut [u64],
)
    requires fillable { Fillable populations.now total house seats.old }
    requires precedences_len { length precedences.old ≡ length populations.now }
    ensures { seats.new ≡ remainder_seats populations.now house }
{
    let parts = fill_parts(populations, total, house, precedences, seats);
    give_left(
        precedences,
        house - parts.given,
        parts.least,
        parts.greatest,
        seats,
    );
}

// Fills `seats` with the allotment of largest remainders.
pub fn fill_remainders(populations: &[u64], total: u64, house: u64, seats: &mut [u64])
    requires { Fillable populations.now total house seats.old }
    ensures { seats.new ≡ remainder_seats populations.now house }
{
    let states = populations.len();
    let mut precedences = [0u64; STATE_LIMIT];
    fill_with_room(populations, total, house, &mut precedences[..states], seats);
}
