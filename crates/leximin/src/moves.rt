// One seat placed or withdrawn, by a scan; and several in turn, by scans or by a tournament, whichever is cheaper.
ghost use Rattle.std.specs.Prelude.{◌≡◌, ◌*◌, ◌<◌, length};
ghost use Rattle.claims.specs.inner.Order.{placed, withdrawn};
ghost use Rattle.claims.specs.inner.SizeClaims.{size_test, one_each};
ghost use Rattle.leximin.specs.inner.Scan.{Bounded, Seated};
ghost use Rattle.leximin.specs.inner.Moves.{moved_once, moved_times, Movable};

use crate::house::House;
use crate::tournament::Seating;
use apportionment::STATE_LIMIT;
use claims::moves::moved;
use claims::tournament;

// The places of a tournament among as many states as a register may have.
const PLACES: usize = 2 * STATE_LIMIT;

// Making a tournament costs as much as looking at so many states (measured): a scan for each seat is cheaper for one seat, for two among
// up to 32 states, for three among up to 16, and so on.
const MAKING: usize = 32;

fn scans_pay(states: usize, times: u64) -> bool
    requires { 0 < states }
{
    times <= (1 + MAKING / states) as u64
}

impl House<'_> {
    // The first claim not met is met.
    fn place(&self, seats: &mut [u64])
        requires { Bounded self.now.populations.now self.now.total self.now.house seats.old }
        ensures { seats.new ≡ placed (size_test self.now.populations.now self.now.house) (length self.now.populations.now)
            seats.old }
    {
        let at = self.first_unmet(seats);
        seats[at] += 1;
    }

    // The last claim met is given up. It differs from `place` in the scan and in the step, which is all that either has.
    fn withdraw(&self, seats: &mut [u64])
        requires { Seated self.now.populations.now self.now.total self.now.house seats.old }
        ensures { seats.new ≡ withdrawn one_each (size_test self.now.populations.now self.now.house)
            (length self.now.populations.now) seats.old }
    {
        let at = self.last_met(seats);
        seats[at] -= 1;
    }

    // One seat moved: placed where `up` is true, and withdrawn otherwise. Which it is shows at run time alone, so no type or closure picks
    // it.
    fn move_once(&self, up: bool, seats: &mut [u64])
        requires { Seated self.now.populations.now self.now.total self.now.house seats.old }
        ensures { seats.new ≡ moved_once up self.now.populations.now self.now.house seats.old }
    {
        if up {
            self.place(seats);
            return;
        }
        self.withdraw(seats);
    }

    // Moves so many seats, each by a scan of all states.
    fn move_by_scans(&self, up: bool, seats: &mut [u64], times: u64)
        requires { Movable up self.now.populations.now self.now.total self.now.house seats.old times }
        ensures { seats.new ≡ moved_times up self.now.populations.now self.now.house seats.old times }
    {
        for _ in 0..times {
            self.move_once(up, seats);
        }
    }

    // Moves so many seats, one after the other: each time the state at the root of a tournament, which is then replayed.
    fn move_by_tournament(&self, up: bool, seats: &mut [u64], times: u64, tree: &mut [u16])
        requires { Movable up self.now.populations.now self.now.total self.now.house seats.old times
            × (length tree.old ≡ 2 * length self.now.populations.now) }
        ensures { seats.new ≡ moved_times up self.now.populations.now self.now.house seats.old times }
    {
        let begun = Seating {
            up,
            populations: self.populations,
            seats,
            total: self.total,
            house: self.house,
        };
        tournament::play(&begun, tree);
        for _ in 0..times {
            let state = usize::from(tree[1]);
            seats[state] = moved(up, seats[state]);
            let now = Seating {
                up,
                populations: self.populations,
                seats,
                total: self.total,
                house: self.house,
            };
            tournament::replay(&now, state, tree);
        }
    }

    // Places so many seats where `up` is true, and withdraws so many otherwise.
    pub fn move_times(&self, up: bool, seats: &mut [u64], times: u64)
        requires { Movable up self.now.populations.now self.now.total self.now.house seats.old times }
        ensures { seats.new ≡ moved_times up self.now.populations.now self.now.house seats.old times }
    {
        if scans_pay(self.populations.len(), times) {
            self.move_by_scans(up, seats, times);
            return;
        }
        let mut tree = [0u16; PLACES];
        let places = 2 * self.populations.len();
        self.move_by_tournament(up, seats, times, &mut tree[..places]);
    }
}
