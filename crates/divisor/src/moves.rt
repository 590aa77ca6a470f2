// Moves: the seats that rounding left lacking or too much are placed (`up`) or withdrawn one after the other, by a tournament or, where
// that is faster, by scans.
ghost use Rattle.std.specs.Prelude.{◌≡◌, ◌*◌, length};
ghost use Rattle.signposts.specs.inner.Order.{ClaimsFit};
ghost use Rattle.divisor.specs.inner.Moves.{Moves, Played, Turn, Turned, moved_once, moved_seats};

use apportionment::{DivisorMethod, STATE_LIMIT};
use claims::moves::moved;
use claims::tournament;
use signposts::order::Seating;

// Scans that look at so few states in all are faster than making a tournament, and so is a single scan.
const FEW: u64 = 96;

// Is going through all states for each seat faster than making a tournament?
fn few(times: u64, states: usize) -> bool {
    times < 2 || states as u64 <= FEW / times
}

// The states between which a method moves seats: `up` where it places them.
#[derive(Clone, Copy)]
pub struct Movement<'a> {
    pub method: DivisorMethod,
    pub up: bool,
    pub populations: &'a [u64],
}

impl Movement<'_> {
    // The state at the root moves, and the tournament is replayed from its leaf.
    #[tactic(auto, using(crate::specs::inner::Moves::root_lt, crate::specs::inner::Moves::root_within))]
    fn move_one(self, seats: &mut [u64], tree: &mut [usize])
        requires { Turn self.method self.up self.populations.now seats.old tree.old }
        ensures { Turned self.entry.method self.entry.up self.entry.populations.now seats.old seats.new tree.new }
    {
        let place = tree[1];
        seats[place] = moved(self.up, seats[place]);
        let seating = Seating {
            method: self.method,
            up: self.up,
            populations: self.populations,
            seats,
        };
        tournament::replay(&seating, place, tree);
    }

    // So many moves, one after the other.
    fn move_seats(self, times: u64, seats: &mut [u64], tree: &mut [usize])
        requires { Moves self.up self.populations.now seats.old times
            × Played self.method self.up self.populations.now seats.old tree.old }
        ensures { seats.new ≡ moved_seats self.entry.method self.entry.up self.entry.populations.now seats.old times }
    {
        for _ in 0..times {
            self.move_one(seats, tree);
        }
    }

    // So many moves by a tournament made in a list of two entries a state.
    fn play(self, times: u64, seats: &mut [u64], tree: &mut [usize])
        requires { Moves self.up self.populations.now seats.old times × (length tree.old ≡ 2 * length self.populations.now) }
        ensures { seats.new ≡ moved_seats self.entry.method self.entry.up self.entry.populations.now seats.old times }
    {
        let seating = Seating {
            method: self.method,
            up: self.up,
            populations: self.populations,
            seats,
        };
        tournament::play(&seating, tree);
        self.move_seats(times, seats, tree);
    }

    // The state that moves first, found by going through all, moves.
    #[tactic(auto, using(claims::specs::inner::Moves::first_moves))]
    fn scan_one(self, seats: &mut [u64])
        requires { ClaimsFit self.populations.now seats.old }
        ensures { seats.new ≡ moved_once self.entry.method self.entry.up self.entry.populations.now seats.old }
    {
        let seating = Seating {
            method: self.method,
            up: self.up,
            populations: self.populations,
            seats,
        };
        let place = seating.first_to_move();
        seats[place] = moved(self.up, seats[place]);
    }

    // So many moves by scans.
    fn scan_moves(self, times: u64, seats: &mut [u64])
        requires { Moves self.up self.populations.now seats.old times }
        ensures { seats.new ≡ moved_seats self.entry.method self.entry.up self.entry.populations.now seats.old times }
    {
        for _ in 0..times {
            self.scan_one(seats);
        }
    }

    // Places so many seats, or withdraws them.
    pub fn make_moves(self, times: u64, seats: &mut [u64])
        requires { Moves self.up self.populations.now seats.old times }
        ensures { seats.new ≡ moved_seats self.entry.method self.entry.up self.entry.populations.now seats.old times }
    {
        if few(times, self.populations.len()) {
            self.scan_moves(times, seats);
            return;
        }
        let mut tree = [0usize; 2 * STATE_LIMIT];
        let nodes = 2 * self.populations.len();
        self.play(times, seats, &mut tree[..nodes]);
    }
}
