// The listing of a register: its allotment, line by line, as document 01 lays it out.
#![tactic(auto)]

mod rows;

ghost use Rattle.std.specs.Prelude.{◌≡◌, ◌≤◌, length};
ghost use Rattle.register.specs.Register.{reading_outcome, rows_of, name_in_row};
ghost use Rattle.register.specs.inner.Rows.{Placed};
ghost use Rattle.register.specs.inner.Sound.{GoodReading};
ghost use Rattle.apportionment.specs.Refusals.{accepted};
ghost use Rattle.writing.specs.inner.Writing.{Wrote};
ghost use Rattle.handover.specs.Handover.{written_in, WritingIs};
ghost use Rattle.listing.specs.Listing.{listing_in, ListingIs, listing_printed};
ghost use Rattle.listing.specs.inner.Room.{AllListable};

use apportionment::STATE_LIMIT;
use apportionment::refusals::Refused;
use register::{NamePlace, Reading};
use writing::Page;

// The room of the longest head, line of a state and line of totals; specs/inner/Room.antt says what each is made of.
const HEAD_ROOM: usize = 31;

const LINE_ROOM: usize = 67;

const TOTAL_ROOM: usize = 23;

// Room for every listing there is, as specs/inner/Room.antt shows; a listing is written there first, so that a buffer that is too short
// stays as it is.
pub const LISTING_ROOM: usize = HEAD_ROOM + STATE_LIMIT * LINE_ROOM + TOTAL_ROOM;

// The whole listing of what was read, from the front of the buffer on; the place after it. The states' names stand in the rows of the
// register, each at its place.
fn put_listing(
    out: &mut [u8],
    reading: Reading,
    rows: &[u8],
    places: &[NamePlace],
    seats: &[u64],
) -> usize
    requires listable { AllListable (reading_outcome (Ok reading)) (name_in_row rows.now) seats.now }
    requires placed { Placed reading.states rows.now places.now }
    ensures { Wrote out.old 0 (listing_in (reading_outcome (Ok reading)) (name_in_row rows.now) seats.now)
        out.new result }
{
    let n = reading.states;
    let method = reading.method;
    let populations = reading.populations;
    let mut page = Page::new(out);
    text::put_head(&mut page, b"allotment", method, reading.house, n as u64);
    rows::put_states(
        &mut page,
        rows,
        places,
        &populations[..n],
        seats,
        reading.total,
        reading.house,
    );
    text::put_total(&mut page, reading.total, problem::total_of(seats));
    page.place()
}

// Writes the listing of what was read on a page and hands it over to the buffer, if it fits.
fn list_seats(
    reading: Reading,
    rows: &[u8],
    places: &[NamePlace],
    seats: &[u64],
    out: &mut [u8],
) -> Result<usize, Refused>
    requires listable { AllListable (reading_outcome (Ok reading)) (name_in_row rows.now) seats.now }
    requires placed { Placed reading.states rows.now places.now }
    ensures { WritingIs accepted 0 (listing_in (reading_outcome (Ok reading)) (name_in_row rows.now) seats.now)
        out.old (written_in result) out.new }
{
    let mut page = [0u8; LISTING_ROOM];
    let size = put_listing(&mut page[..], reading, rows, places, seats);
    Ok(handover::hand_over(&page[..size], out)?)
}

// Allots what was read and lists it. The seats go into a lent list, which has a place for each state.
fn list_states(
    register: &[u8],
    reading: Reading,
    places: &[NamePlace],
    seats: &mut [u64],
    out: &mut [u8],
) -> Result<usize, Refused>
    requires read { GoodReading register.now (reading_outcome (Ok reading)) × (length seats.old ≡ reading.states) }
    requires placed { Placed reading.states (rows_of register.now) places.now }
    ensures { ListingIs register.now out.old (written_in result) out.new }
{
    let n = reading.states;
    let method = reading.method;
    let populations = reading.populations;
    allot::allot(method, reading.house, &populations[..n], seats)?;
    let rows = register::rows::of(register);
    list_seats(reading, rows, places, &seats[..], out)
}

// Writes the listing of a register into the buffer and answers its length: reading's refusals, allotting's, then 31 exactly if the listing
// is longer than the buffer. Refused, the buffer keeps every byte; otherwise it keeps those after the listing.
pub fn write_listing(register: &[u8], out: &mut [u8]) -> Result<usize, Refused>
    ensures { ListingIs register.now out.old (written_in result) out.new }
{
    let mut places = [NamePlace { start: 0, end: 0 }; STATE_LIMIT];
    let reading = register::read_places(register, &mut places[..])?;
    let n = reading.states;
    let mut seats = [0u64; STATE_LIMIT];
    list_states(register, reading, &places[..], &mut seats[..n], out)
}

// What the allotment program prints: the listing, or a refusal's one line. The page has room for either, and keeps its bytes after it.
pub fn print(register: &[u8], page: &mut [u8; LISTING_ROOM]) -> usize
    ensures wrote { Wrote page.old 0 (listing_printed register.now) page.new result }
    ensures fits { length (listing_printed register.now) ≤ length page.old }
{
    match write_listing(register, &mut page[..]) {
        Ok(size) => size,
        Err(refused) => {
            let mut told = Page::new(&mut page[..]);
            text::put_refusal(&mut told, refused.refusal.number(), refused.line);
            told.place()
        }
    }
}
