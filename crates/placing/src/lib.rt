// The placing: leximin's work seat by seat. Opening hands back each state's nearest seats, and a move takes a placing so many seats towards
// the house; a placing that opening and moves did not give is told from one that they did, and left as it was.
#![tactic(auto)]

mod genuine;

ghost use Rattle.std.specs.Prelude.{◌≡◌, cond, ◌+◌, ◌-◌, ◌≤◌, min, ltb};
ghost use Rattle.apportionment.specs.Quantities.{distance};
ghost use Rattle.apportionment.specs.Refusals.{accepted};
ghost use Rattle.apportionment.specs.inner.Problem.{Problem};
ghost use Rattle.leximin.specs.inner.Moves.{moved_times};
ghost use Rattle.placing.specs.Placing.{opened_of, moved_of, empty_placing, started};
ghost use Rattle.placing.specs.inner.Moving.{Towards};

use apportionment::STATE_LIMIT;
use apportionment::refusals::{ACCEPTED, Refusal};
use leximin::house::House;
use problem::{check_opening, total_of};
use std::cmp::min;

// Populations, house and seats, in arrays that hold 0 past their `states` places; the seats' total; the seats moved since opening. C and
// Rust hold it as it is laid out here.
#[repr(C)]
#[derive(Clone, Copy)]
pub struct Placing {
    pub states: usize,
    pub house: u64,
    pub total: u64,
    pub steps: u64,
    pub populations: [u64; STATE_LIMIT],
    pub seats: [u64; STATE_LIMIT],
}

// What opening hands back: a placing, with the number of the refusal, or 0. A number, and no Result, since C is handed this record.
#[repr(C)]
#[derive(Clone, Copy)]
pub struct Placed {
    pub refusal: u64,
    pub placing: Placing,
}

// What a move answers: the number of the refusal, or 0, and how many seats were moved. A number for the same reason.
#[repr(C)]
#[derive(Clone, Copy)]
pub struct Moved {
    pub refusal: u64,
    pub moved: u64,
}

// The answer of a move, and the placing that it leaves.
#[derive(Clone, Copy)]
pub struct MovedOn {
    pub answer: Moved,
    pub placing: Placing,
}

impl Placing {
    // Opens a placing at each state's nearest seats: refusals 10, 11, 12, 13 and 15, and everything 0 where one is given.
    pub fn open(populations: &[u64], house: u64) -> Placed
        ensures { result ≡ opened_of populations.now house }
    {
        match check_opening(populations, house) {
            Ok(()) => Placed {
                refusal: ACCEPTED,
                placing: Placing::started(populations, total_of(populations), house),
            },
            Err(refusal) => Placed {
                refusal: refusal.number(),
                placing: Placing::empty(),
            },
        }
    }

    // Everything 0.
    fn empty() -> Placing
        ensures { result ≡ empty_placing }
    {
        Placing {
            states: 0,
            house: 0,
            total: 0,
            steps: 0,
            populations: [0; STATE_LIMIT],
            seats: [0; STATE_LIMIT],
        }
    }

    // The start of a problem that the checks let through; `sum` is the sum of the populations.
    fn started(populations: &[u64], sum: u64, house: u64) -> Placing
        requires { Problem populations.now sum house }
        ensures { result ≡ started populations.now house }
    {
        let states = populations.len();
        let mut people = [0; STATE_LIMIT];
        people[..states].copy_from_slice(populations);
        let mut seats = [0; STATE_LIMIT];
        let own = House {
            populations,
            total: sum,
            house,
        };
        let begun = own.fill_start(&mut seats[..states]);
        Placing {
            states,
            house,
            total: begun,
            steps: 0,
            populations: people,
            seats,
        }
    }

    // What a move by so many seats answers, and the placing that it leaves. The placing is lent, so that it is not copied only to be read.
    fn later(&self, seats: u64) -> MovedOn
        ensures { result ≡ moved_of self.now seats }
    {
        if !self.is_genuine() {
            return MovedOn {
                answer: Moved {
                    refusal: Refusal::PlacingForeign.number(),
                    moved: 0,
                },
                placing: *self,
            };
        }
        let states = self.states;
        let moved = min(seats, self.total.abs_diff(self.house));
        let mut placed = self.seats;
        move_towards(
            &self.populations[..states],
            &mut placed[..states],
            self.total,
            self.house,
            moved,
        );
        MovedOn {
            answer: Moved {
                refusal: ACCEPTED,
                moved,
            },
            placing: Placing {
                total: total_later(self.total, self.house, moved),
                steps: self.steps + moved,
                seats: placed,
                ..*self
            },
        }
    }

    // Moves so many seats towards the house, fewer only if it is reached: 21 for a placing that opening and moves did not give, which comes
    // back unaltered. Programs in this language move a placing so; `advance` is for whoever keeps one.
    pub fn moved_on(self, seats: u64) -> MovedOn
        ensures { result ≡ moved_of self seats }
    {
        self.later(seats)
    }

    // The same move of a placing that stays with its owner and is lent for the call.
    pub fn advance(&mut self, seats: u64) -> Moved
        ensures { record { answer = result; placing = self.new } ≡ moved_of self.old seats }
    {
        let on = self.later(seats);
        *self = on.placing;
        on.answer
    }
}

// The total once so many seats were moved towards the house.
fn total_later(total: u64, house: u64, times: u64) -> u64
    requires { times ≤ distance total house }
    ensures { result ≡ cond (ltb total house) (total + times) (total - times) }
{
    if total < house {
        total + times
    } else {
        total - times
    }
}

// Moves so many of the seats of a placing towards the house. At the house the total no longer shows from which side the seats came; with no
// seat to move, nothing has to be known of that.
fn move_towards(populations: &[u64], seats: &mut [u64], total: u64, house: u64, times: u64)
    requires { Towards populations.now house seats.old total times }
    ensures { seats.new ≡ moved_times (ltb total house) populations.now house seats.old times }
{
    if times == 0 {
        return;
    }
    let own = House {
        populations,
        total: total_of(populations),
        house,
    };
    own.move_times(total < house, seats, times);
}
