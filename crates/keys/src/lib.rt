// Keys, whole numbers that order quotients exactly, and tournaments of them: a leaf for each place, and at each inner place the one of its
// two with the larger key, of equal keys the earlier. The root is the first of all.
#![tactic(auto)]

ghost use Rattle.std.specs.Prelude.{◌≡◌, ◌*◌, ◌/◌, ◌<◌, ◌≤◌, length, set};
ghost use Rattle.apportionment.specs.Limits.{house_limit, sum_limit};
ghost use Rattle.keys.specs.inner.Keys.{key_of};
ghost use Rattle.keys.specs.inner.Tournament.{larger, Played};

use claims::tournament::{self, Contest};

// More than (a + 1) (b + 1) for any seats a and b up to the largest house.
const KEY_SCALE: u64 = 1_073_741_824;

// The key of the quotient p / (a + 1): keys are ordered exactly as the quotients are, and equal where these are.
pub fn key_of(population: u64, seats: u64) -> u64
    requires { (population ≤ sum_limit) × (seats ≤ house_limit) }
    ensures { result ≡ key_of population seats }
{
    population * KEY_SCALE / (seats + 1)
}

// Keys as a tournament compares them: the larger comes first, and of equal keys none.
#[derive(Clone, Copy)]
struct Keys<'a> {
    keys: &'a [u64],
}

impl Contest for Keys<'_> {
    ghost entrants = { λ s. length s.keys.now };

    ghost before = { λ s. larger s.keys.now };

    fn entrants(&self) -> usize {
        self.keys.len()
    }

    fn comes_before(&self, i: usize, j: usize) -> bool {
        self.keys[i] > self.keys[j]
    }

    // In place of the rule that every contest has, which looks at the places before the keys: the keys decide first, and both are at hand
    // before any is compared. The quota method takes a sixth longer with the rule (measured).
    fn better_of(&self, a: usize, b: usize) -> usize {
        let one = self.keys[a];
        let other = self.keys[b];
        if one < other {
            return b;
        }
        if other < one {
            return a;
        }
        if a < b {
            return a;
        }
        b
    }
}

// Plays a tournament in a list of two entries a place.
pub fn play(keys: &[u64], tree: &mut [usize])
    requires { (0 < length keys.now) × (length tree.old ≡ 2 * length keys.now) }
    ensures { Played keys.now tree.new }
{
    tournament::play(&Keys { keys }, tree);
}

// Changes one key.
pub fn set_key(place: usize, key: u64, keys: &mut [u64], tree: &mut [usize])
    requires { Played keys.old tree.old × (place < length keys.old) }
    ensures keys_after { keys.new ≡ set keys.old place key }
    ensures played { Played keys.new tree.new }
{
    keys[place] = key;
    tournament::replay(&Keys { keys }, place, tree);
}
