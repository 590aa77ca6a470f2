// The lines of a listing, each written on a page.
ghost use Rattle.std.specs.Prelude.{◌<◌, length};
ghost use Rattle.departure.specs.inner.Answer.{AllInLimits, InLimits};
ghost use Rattle.register.specs.Register.{name_in_row};
ghost use Rattle.register.specs.inner.Rows.{Placed};
ghost use Rattle.writing.specs.inner.Page.{Appended};
ghost use Rattle.listing.specs.Listing.{state_line, state_lines};

use departure::departure_of;
use register::NamePlace;
use register::rows::name_placed;
use text::answers;
use writing::Page;

// A state's line.
fn put_state(page: &mut Page, name: &[u8], population: u64, seats: u64, total: u64, house: u64)
    requires { InLimits population seats total house }
    ensures { Appended page.old (state_line name.now population seats total house) page.new }
{
    let answer = departure_of(population, seats, total, house);
    page.put_bytes(name);
    text::put_numbers(page, population, seats);
    page.put_byte(b',');
    answers::put_departure(page, answer);
    page.put_byte(b',');
    answers::put_mark(page, answer);
    page.put_byte(b'\n');
}

// The states' lines. Their names stand in the rows of the register, each at its place.
pub fn put_states(
    page: &mut Page,
    rows: &[u8],
    places: &[NamePlace],
    populations: &[u64],
    seats: &[u64],
    total: u64,
    house: u64,
)
    requires limited { AllInLimits populations.now seats.now total house }
    requires placed { Placed (length populations.now) rows.now places.now }
    ensures { Appended page.old
        (state_lines (name_in_row rows.now) populations.now seats.now total house
        (length populations.now)) page.new }
{
    for (k, population) in populations.iter().enumerate() {
        let name = name_placed(rows, places, k);
        put_state(page, name, *population, seats[k], total, house);
    }
}
