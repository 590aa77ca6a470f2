// Whether a placing is one that opening and steps give. No step is replayed (crate `agreement`): eight passes over the states, five where
// no step was made, and one over what each list holds past them, tell it however many steps were made.
ghost use Rattle.std.specs.Prelude.{◌≡◌};
ghost use Rattle.placing.specs.Placing.{genuine};

use crate::Placing;
use agreement::agree;
use agreement::lists::zeros_from;
use apportionment::STATE_LIMIT;
use leximin::house::House;
use problem::{check_opening, total_of};

impl Placing {
    // Its numbers and lists are those that opening and some steps, or none, give from its own populations and house.
    pub fn is_genuine(&self) -> bool
        ensures { result ≡ genuine self.now }
    {
        let states = self.states;
        if STATE_LIMIT < states {
            return false;
        }
        let populations = &self.populations[..states];
        let seats = &self.seats[..states];
        if check_opening(populations, self.house).is_err() {
            return false;
        }
        let own = House {
            populations,
            total: total_of(populations),
            house: self.house,
        };
        if !agree(&own, seats, self.total, self.steps) {
            return false;
        }
        zeros_from(&self.populations, states) && zeros_from(&self.seats, states)
    }
}
