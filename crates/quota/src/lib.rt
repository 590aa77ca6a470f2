// The quota method of Balinski and Young. By its definition it gives one seat after another and goes through all states for each. Here
// every state starts from the whole part of its share, which it has in the end, and only the few seats beyond are given by turns, each at
// the number where the method has room for it. That this comes to the same seats is the theory's (specs/inner).
#![tactic(auto)]

pub mod due;
pub mod rounds;
pub mod start;

ghost use Rattle.std.specs.Prelude.{◌≡◌, length};
ghost use Rattle.apportionment.specs.Lists.{sum};
ghost use Rattle.apportionment.specs.Quota.{quota_seats};
ghost use Rattle.apportionment.specs.inner.Problem.{Fillable};
ghost use Rattle.quota.specs.inner.Play.{Room};

use crate::due::mark_all;
use crate::rounds::{Queue, serve};
use crate::start::{fill_keys, fill_outers, fill_wholes};
use apportionment::{HOUSE_LIMIT, STATE_LIMIT};

// Fills `seats` with the allotment of the quota method, with room lent by the caller.
fn fill_with_room(
    populations: &[u64],
    total: u64,
    house: u64,
    due: &mut [u16],
    outside: &mut Queue<'_>,
    waiting: &mut Queue<'_>,
    seats: &mut [u64],
)
    requires fillable { Fillable populations.now total house seats.old }
    requires room { Room populations.now house due.old outside.old.keys.now outside.old.tree.now waiting.old.keys.now waiting.old.tree.now }
    ensures { seats.new ≡ quota_seats populations.now house }
{
    fill_wholes(populations, total, house, seats);
    mark_all(populations, total, seats, due);
    fill_outers(populations, total, house, seats, outside.keys);
    fill_keys(populations, total, house, seats, waiting.keys);
    outside.play();
    waiting.play();
    serve(populations, house, due, seats, outside, waiting);
}

// Fills `seats` with it, with a count of 0 for each number of the house lent by the caller.
fn fill_counted(populations: &[u64], total: u64, house: u64, due: &mut [u16], seats: &mut [u64])
    requires fillable { Fillable populations.now total house seats.old }
    requires due_len { (length due.old ≡ house) × (sum due.old ≡ 0) }
    ensures { seats.new ≡ quota_seats populations.now house }
{
    let states = populations.len();
    let mut outers = [0u64; STATE_LIMIT];
    let mut arrivals = [0usize; 2 * STATE_LIMIT];
    let mut keys = [0u64; STATE_LIMIT];
    let mut ranking = [0usize; 2 * STATE_LIMIT];
    let mut outside = Queue {
        keys: &mut outers[..states],
        tree: &mut arrivals[..2 * states],
    };
    let mut waiting = Queue {
        keys: &mut keys[..states],
        tree: &mut ranking[..2 * states],
    };
    fill_with_room(
        populations,
        total,
        house,
        due,
        &mut outside,
        &mut waiting,
        seats,
    );
}

// Fills `seats` with the allotment of the quota method.
pub fn fill_quota(populations: &[u64], total: u64, house: u64, seats: &mut [u64])
    requires { Fillable populations.now total house seats.old }
    ensures { seats.new ≡ quota_seats populations.now house }
{
    let numbers = house as usize;
    let mut due = [0u16; HOUSE_LIMIT as usize];
    fill_counted(populations, total, house, &mut due[..numbers], seats);
}
