// Reading a register, and the names of its states. Crates that need the names of a register that was read go by `rows`.
#![tactic(auto)]

pub mod rows;
mod states;

ghost use Rattle.std.specs.Prelude.{◌≡◌, IfOk};
ghost use Rattle.register.specs.Register.{reading_of, reading_outcome};
ghost use Rattle.register.specs.Register.{name_of, name_refusal_of, refusal_told};
ghost use Rattle.register.specs.inner.Rows.{PlacesRoom, PlacedIn};

use apportionment::refusals::{Refusal, Refused};
use apportionment::{Method, REGISTER_LIMIT, STATE_LIMIT};
pub use lines::NamePlace;
use lines::head;

// What reading gives.
#[derive(Clone, Copy)]
pub struct Reading {
    pub method: Method,
    pub house: u64,
    pub states: usize,
    pub total: u64,
    pub populations: [u64; STATE_LIMIT],
}

// Reads a register as `read` does, and keeps where the names of its states stand in `rows::of(bytes)`.
pub fn read_places(bytes: &[u8], places: &mut [NamePlace]) -> Result<Reading, Refused>
    requires { PlacesRoom places.old }
    ensures reading { reading_outcome result ≡ reading_of bytes.now }
    ensures placed { PlacedIn bytes.now places.new result }
{
    if REGISTER_LIMIT < bytes.len() {
        return Err(Refused::from(Refusal::RegisterTooLong));
    }
    let head = head::read_head(bytes).map_err(|refusal| Refused { refusal, line: 1 })?;
    states::read_states(head, rows::of(bytes), places)
}

// Reads a register: 1 for more than 65,536 bytes, then the first faulty line's refusal from the top.
pub fn read(bytes: &[u8]) -> Result<Reading, Refused>
    ensures { reading_outcome result ≡ reading_of bytes.now }
{
    let mut places = [NamePlace { start: 0, end: 0 }; STATE_LIMIT];
    read_places(bytes, &mut places[..])
}

// Checks the place of a name: reading's refusal, then 40 for a place that no state has.
pub fn check_place(bytes: &[u8], place: usize) -> Result<(), Refused>
    ensures { refusal_told result ≡ name_refusal_of bytes.now place }
{
    let reading = read(bytes)?;
    if place < reading.states {
        return Ok(());
    }
    Err(Refused::from(Refusal::PlaceOutOfStates))
}

// The name of the state with the given place, counted from 0: the part of the register that holds it. Refused, as `check_place` tells, an
// empty part.
pub fn name(bytes: &[u8], place: usize) -> &[u8]
    ensures { result.now ≡ name_of bytes.now place }
{
    match check_place(bytes, place) {
        Ok(()) => rows::name_on(rows::of(bytes), place),
        Err(_) => &bytes[..0],
    }
}
