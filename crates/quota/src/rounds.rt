// Seats beyond the whole parts, given by turns. Two queues tell who is next: `outside` has the states that are not yet able to have such a
// seat, and `waiting` those that wait for one.
ghost use Rattle.std.specs.Prelude.{◌≡◌, ◌+◌, ◌-◌, ◌*◌, ◌<◌, get_or, set, length};
ghost use Rattle.apportionment.specs.Divisor.{one_more};
ghost use Rattle.quota.specs.inner.Rounds.{seats_at};
ghost use Rattle.keys.specs.inner.Tournament.{Played};
ghost use Rattle.quota.specs.inner.Play.{Entries, OneAdmitted, Turn, Admitted, Giving, Owed, served_one, InPlay, Started};

use keys::{key_of, play, set_key};

// A key for each state, and the tournament in which the largest is first.
#[derive(Drop)]
pub struct Queue<'a> {
    pub keys: &'a mut [u64],
    pub tree: &'a mut [usize],
}

impl Queue<'_> {
    // Plays the tournament, whatever the tree held before.
    pub fn play(&mut self)
        requires { (0 < length self.old.keys.now) × (length self.old.tree.now ≡ 2 * length self.old.keys.now) }
        ensures keys_after { self.new.keys.now ≡ self.old.keys.now }
        ensures played { Played self.new.keys.now self.new.tree.now }
    {
        let keys = &mut *self.keys;
        play(keys, self.tree);
    }

    // The state with the largest key.
    fn first(&self) -> usize
        requires { Played self.now.keys.now self.now.tree.now × (0 < length self.now.keys.now) }
        ensures { result ≡ get_or self.now.tree.now 1 0 }
    {
        self.tree[1]
    }

    // Changes one key.
    fn set(&mut self, place: usize, key: u64)
        requires { Played self.old.keys.now self.old.tree.now × (place < length self.old.keys.now) }
        ensures keys_after { self.new.keys.now ≡ set self.old.keys.now place key }
        ensures played { Played self.new.keys.now self.new.tree.now }
    {
        set_key(place, key, self.keys, self.tree);
    }
}

// The first of those outside waits from now on.
fn admit_one(populations: &[u64], seats: &[u64], outside: &mut Queue<'_>, waiting: &mut Queue<'_>)
    requires { Entries populations.now seats.now outside.old.keys.now outside.old.tree.now waiting.old.keys.now waiting.old.tree.now }
    ensures one_admitted { OneAdmitted populations.now seats.now (get_or outside.old.tree.now 1 0) outside.old.keys.now
        waiting.old.keys.now outside.new.keys.now waiting.new.keys.now }
    ensures played { Played outside.new.keys.now outside.new.tree.now × Played waiting.new.keys.now waiting.new.tree.now }
{
    let place = outside.first();
    let key = key_of(populations[place], seats[place]);
    outside.set(place, 0);
    waiting.set(place, key);
}

// All that are able to have the seat of the number after `passed` wait.
fn admit(
    populations: &[u64],
    house: u64,
    passed: u64,
    seats: &[u64],
    outside: &mut Queue<'_>,
    waiting: &mut Queue<'_>,
)
    requires { Turn populations.now house passed seats.now outside.old.keys.now outside.old.tree.now
        waiting.old.keys.now waiting.old.tree.now }
    ensures { Admitted populations.now house passed seats.now outside.new.keys.now outside.new.tree.now
        waiting.new.keys.now waiting.new.tree.now }
{
    while house <= outside.keys[outside.first()] + passed {
        admit_one(populations, seats, outside, waiting);
    }
}

// The first of those that wait has a seat.
fn give(seats: &mut [u64], waiting: &mut Queue<'_>)
    requires { Giving seats.old waiting.old.keys.now waiting.old.tree.now }
    ensures seats_after { seats.new ≡ one_more seats.old (get_or waiting.old.tree.now 1 0) }
    ensures keys_after { waiting.new.keys.now ≡ set waiting.old.keys.now (get_or waiting.old.tree.now 1 0) 0 }
    ensures played { Played waiting.new.keys.now waiting.new.tree.now }
{
    let place = waiting.first();
    seats[place] += 1;
    waiting.set(place, 0);
}

// The seat of the number after `passed`: a seat of a whole part that is due goes first, and only where none is, it is given by turns. Hands
// back how many are due after it.
fn serve_one(
    populations: &[u64],
    house: u64,
    passed: u64,
    due: u64,
    seats: &mut [u64],
    outside: &mut Queue<'_>,
    waiting: &mut Queue<'_>,
) -> u64
    requires turn { Turn populations.now house passed seats.old outside.old.keys.now outside.old.tree.now
        waiting.old.keys.now waiting.old.tree.now }
    requires owed { Owed populations.now (passed + 1) due seats.old }
    ensures value { result ≡ due - 1 }
    ensures seats_after { seats.new ≡ served_one populations.now (passed + 1) due seats.old }
    ensures in_play { InPlay populations.now house passed seats.new outside.new.keys.now outside.new.tree.now
        waiting.new.keys.now waiting.new.tree.now }
{
    if due == 0 {
        admit(populations, house, passed, seats, outside, waiting);
        give(seats, waiting);
        return 0;
    }
    due - 1
}

// Goes through the numbers from 1 to the house; `dues` has the seats of whole parts that can be had from each on.
pub fn serve(
    populations: &[u64],
    house: u64,
    dues: &[u16],
    seats: &mut [u64],
    outside: &mut Queue<'_>,
    waiting: &mut Queue<'_>,
)
    requires { Started populations.now house dues.now seats.old outside.old.keys.now outside.old.tree.now
        waiting.old.keys.now waiting.old.tree.now }
    ensures { seats.new ≡ seats_at populations.now house house }
{
    let mut due = 0;
    for passed in 0..house {
        let queue = due + u64::from(dues[passed as usize]);
        due = serve_one(populations, house, passed, queue, seats, outside, waiting);
    }
}
