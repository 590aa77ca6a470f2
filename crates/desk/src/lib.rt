// The C interface, as include/desk.h words it: each operation over numbers and what is lent, with its record handed back by value. An enum
// is a number here, and the part of a register that holds a name is its start and length; placings are as crate `placing` lays them out.
#![tactic(auto)]

ghost use Rattle.std.specs.Prelude.{◌≡◌, length};
ghost use Rattle.cleaning.specs.Clean.{clean_of, cleaned_of};
ghost use Rattle.listing.specs.Listing.{listing_of, listed_of};
ghost use Rattle.placing.specs.Placing.{opened_of, moved_of};
ghost use Rattle.register.specs.Register.{reading_of, reading_outcome};
ghost use Rattle.handover.specs.Handover.{buffer_after, written_in};
ghost use Rattle.desk.specs.Interface.{exported_reading, exported_written, exported_departure};
ghost use Rattle.desk.specs.inner.Exported.{exported_answer};
ghost use Rattle.desk.specs.inner.Allotting.{AllottedBy, exported_allotted};
ghost use Rattle.desk.specs.Interface.{allotted_by, seats_by};
ghost use Rattle.desk.specs.Interface.{part_of};

use allot::allot;
use apportionment::refusals::{ACCEPTED, Refusal, Refused};
use apportionment::{Mark, Method, STATE_LIMIT};
use cleaning::write_clean;
use departure::{Shown, departure_of};
use listing::write_listing;
use placing::{Moved, Placed, Placing};
use register::{Reading, rows};

#[repr(C)]
#[derive(Clone, Copy)]
pub struct DeskReading {
    pub refusal: u64,
    pub line: u64,
    pub method: u64,
    pub house: u64,
    pub states: u64,
    pub total: u64,
    pub populations: [u64; STATE_LIMIT],
}

#[repr(C)]
#[derive(Clone, Copy)]
pub struct DeskAllotted {
    pub refusal: u64,
    pub steps: u64,
}

#[repr(C)]
#[derive(Clone, Copy)]
pub struct DeskShown {
    pub refusal: u64,
    pub shown: i64,
    pub mark: u64,
}

#[repr(C)]
#[derive(Clone, Copy)]
pub struct DeskWritten {
    pub refusal: u64,
    pub line: u64,
    pub length: u64,
}

#[repr(C)]
#[derive(Clone, Copy)]
pub struct DeskPart {
    pub refusal: u64,
    pub line: u64,
    pub start: u64,
    pub length: u64,
}

impl From<Result<Reading, Refused>> for DeskReading {
    ghost from_gives = { λ outcome exported. exported ≡ exported_reading (reading_outcome outcome) };

    // The reading is looked at where it lies, and each record made where it is returned: it holds a list, and each copy of it shows.
    fn from(outcome: Result<Reading, Refused>) -> DeskReading {
        let reading = match &outcome {
            Ok(reading) => reading,
            Err(refused) => {
                return DeskReading {
                    refusal: refused.refusal.number(),
                    line: refused.line,
                    method: u64::from(Method::Leximin),
                    house: 0,
                    states: 0,
                    total: 0,
                    populations: [0; STATE_LIMIT],
                };
            }
        };
        let populations = reading.populations;
        DeskReading {
            refusal: ACCEPTED,
            line: 0,
            method: u64::from(reading.method),
            house: reading.house,
            states: reading.states as u64,
            total: reading.total,
            populations,
        }
    }
}

impl From<Result<u64, Refusal>> for DeskAllotted {
    ghost from_gives = { λ outcome exported. exported ≡ exported_allotted outcome };

    fn from(outcome: Result<u64, Refusal>) -> DeskAllotted {
        match outcome {
            Ok(steps) => DeskAllotted {
                refusal: ACCEPTED,
                steps,
            },
            Err(refusal) => DeskAllotted {
                refusal: refusal.number(),
                steps: 0,
            },
        }
    }
}

impl From<Result<Option<Shown>, Refusal>> for DeskShown {
    ghost from_gives = { λ answer exported. exported ≡ exported_answer answer };

    fn from(answer: Result<Option<Shown>, Refusal>) -> DeskShown {
        match answer {
            Ok(Some(Shown { shown, mark })) => DeskShown {
                refusal: ACCEPTED,
                shown,
                mark: mark as u64,
            },
            Ok(None) => DeskShown {
                refusal: ACCEPTED,
                shown: 0,
                mark: Mark::None as u64,
            },
            Err(refusal) => DeskShown {
                refusal: refusal.number(),
                shown: 0,
                mark: Mark::None as u64,
            },
        }
    }
}

impl From<Result<usize, Refused>> for DeskWritten {
    ghost from_gives = { λ outcome exported. exported ≡ exported_written (written_in outcome) };

    fn from(outcome: Result<usize, Refused>) -> DeskWritten {
        match outcome {
            Ok(size) => DeskWritten {
                refusal: ACCEPTED,
                line: 0,
                length: size as u64,
            },
            Err(failed) => DeskWritten {
                refusal: failed.refusal.number(),
                line: failed.line,
                length: 0,
            },
        }
    }
}

// Reads a register: refusals 1 to 7, each but the first with the line at fault.
#[unsafe(no_mangle)]
pub extern "C" fn desk_read(bytes: &[u8]) -> DeskReading
    ensures { result ≡ exported_reading (reading_of bytes.now) }
{
    DeskReading::from(register::read(bytes))
}

// Allots by the method with a number.
fn allot_by(number: u64, house: u64, populations: &[u64], seats: &mut [u64]) -> Result<u64, Refusal>
    ensures { AllottedBy number house populations.now seats.old seats.new result }
{
    let method = Method::try_from(number)?;
    allot(method, house, populations, seats)
}

// Allots a house by the method with a number: 4 for a number that is no method, then allotting's refusals; a refusal leaves the seats as
// they were.
#[unsafe(no_mangle)]
pub extern "C" fn desk_allot(
    method: u64,
    house: u64,
    populations: &[u64],
    seats: &mut [u64],
) -> DeskAllotted
    ensures value { result ≡ allotted_by method house populations.now (length seats.old) }
    ensures seats_after { seats.new ≡ seats_by method house populations.now seats.old }
{
    DeskAllotted::from(allot_by(method, house, populations, seats))
}

// Opens a placing: refusals 10 to 13 and 15, and everything 0 where one is given.
#[unsafe(no_mangle)]
pub extern "C" fn desk_open(populations: &[u64], house: u64) -> Placed
    ensures { result ≡ opened_of populations.now house }
{
    Placing::open(populations, house)
}

// Moves the lent placing so many seats towards the house, fewer only if it is reached: 21 for one that opening and moves did not give,
// which is left as it was.
#[unsafe(no_mangle)]
pub extern "C" fn desk_move(placing: &mut Placing, seats: u64) -> Moved
    ensures { record { answer = result; placing = placing.new } ≡ moved_of placing.old seats }
{
    placing.advance(seats)
}

// The departure of a state: refusal 30 outside the limits. Refused or without seats, `shown` is 0 and the mark none.
#[unsafe(no_mangle)]
pub extern "C" fn desk_departure(population: u64, seats: u64, total: u64, house: u64) -> DeskShown
    ensures { result ≡ exported_departure population seats total house }
{
    DeskShown::from(departure_of(population, seats, total, house))
}

// Writes the listing of a register at the front of the lent buffer: the refusals of reading and of allotting, then 31 if it is longer than
// the buffer, which a refusal leaves as it was.
#[unsafe(no_mangle)]
pub extern "C" fn desk_listing(bytes: &[u8], out: &mut [u8]) -> DeskWritten
    ensures value { result ≡ exported_written (listed_of bytes.now (length out.old)) }
    ensures out_after { out.new ≡ buffer_after result.refusal (listing_of bytes.now) out.old }
{
    DeskWritten::from(write_listing(bytes, out))
}

// Writes the clean form of a register at the front of the lent buffer: reading's refusals, then 31 if it is longer than the buffer, which a
// refusal leaves as it was.
#[unsafe(no_mangle)]
pub extern "C" fn desk_clean(bytes: &[u8], out: &mut [u8]) -> DeskWritten
    ensures value { result ≡ exported_written (cleaned_of bytes.now (length out.old)) }
    ensures out_after { out.new ≡ buffer_after result.refusal (clean_of bytes.now) out.old }
{
    DeskWritten::from(write_clean(bytes, out))
}

// Where the name of the state with a place, counted from 0, starts in the register, and its length: reading's refusals, then 40 for a place
// that no state has.
#[unsafe(no_mangle)]
pub extern "C" fn desk_name(bytes: &[u8], place: usize) -> DeskPart
    ensures { result ≡ part_of bytes.now place }
{
    match register::check_place(bytes, place) {
        Ok(()) => {
            let left = rows::after(rows::of(bytes), place);
            let name = rows::first_name(left);
            let start = bytes.len() - left.len();
            DeskPart {
                refusal: ACCEPTED,
                line: 0,
                start: start as u64,
                length: name.len() as u64,
            }
        }
        Err(refused) => DeskPart {
            refusal: refused.refusal.number(),
            line: refused.line,
            start: 0,
            length: 0,
        },
    }
}
