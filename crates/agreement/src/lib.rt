// What the numbers and the lists of a placing must agree in: its steps with its total, and its total with its seats. No step is replayed,
// since seats that stand in the order of claims are fixed by their total: passes over the states tell it however many steps were made.
#![tactic(auto)]

pub mod lists;

ghost use Rattle.std.specs.Prelude.{◌≡◌, ◌≤◌, length};
ghost use Rattle.apportionment.specs.inner.Problem.{Problem, Fillable};
ghost use Rattle.agreement.specs.inner.Agreement.{steps_agree, seats_agree, agreeing};

use crate::lists::each_within;
use leximin::house::House;
use problem::total_of;

// The steps are no more than the gap, and the total is the one that they lead to.
fn steps_agree(own: &House, total: u64, steps: u64) -> bool
    requires { Problem own.now.populations.now own.now.total own.now.house }
    ensures { result ≡ steps_agree own.now.populations.now own.now.house total steps }
{
    let begun = own.start_total();
    let house = own.house;
    if begun < house {
        if house - begun < steps {
            return false;
        }
        return total == begun + steps;
    }
    if begun - house < steps {
        return false;
    }
    total == begun - steps
}

// The seats are the leximin allotment for the total, as their two ends tell.
fn seats_agree(own: &House, seats: &[u64], total: u64) -> bool
    requires { Fillable own.now.populations.now own.now.total own.now.house seats.now }
    ensures { result ≡ seats_agree own.now.populations.now seats.now own.now.house total }
{
    if total_of(seats) != total {
        return false;
    }
    if each_within(seats, own.house) {
        return own.ends_apart(seats);
    }
    false
}

// The steps, the total and the seats agree. Of a placing just opened it is cheaper to hold each state's seats to its nearest ones.
pub fn agree(own: &House, seats: &[u64], total: u64, steps: u64) -> bool
    requires { Fillable own.now.populations.now own.now.total own.now.house seats.now
        × (length own.now.populations.now ≤ own.now.house) }
    ensures { result ≡ agreeing own.now.populations.now seats.now own.now.house total steps }
{
    if steps == 0 {
        if own.is_start(seats) {
            return total_of(seats) == total;
        }
        return false;
    }
    if steps_agree(own, total, steps) {
        return seats_agree(own, seats, total);
    }
    false
}
