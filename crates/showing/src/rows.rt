// The lines of the work, each written on a page.
ghost use Rattle.std.specs.Prelude.{◌≡◌, ◌<◌, ◌≤◌};
ghost use Rattle.apportionment.specs.Limits.{house_limit};
ghost use Rattle.apportionment.specs.Quantities.{departure_text};
ghost use Rattle.departure.specs.inner.Answer.{InLimits};
ghost use Rattle.writing.specs.inner.Page.{Appended};
ghost use Rattle.showing.specs.Work.{head_line, state_line, seats_if_moved, moved_text, weighed_line, verb_text, step_line};

use departure::departure_of;
use text::answers;
use writing::Page;

// The first line.
pub fn put_head(page: &mut Page, house: u64, states: u64)
    ensures { Appended page.old (head_line house states) page.new }
{
    page.put_bytes(b"work,leximin");
    text::put_numbers(page, house, states);
    page.put_byte(b'\n');
}

// The seats of a state if it moves.
#[tactic(auto, unfolding(crate::specs::Work::seats_if_moved))]
pub fn seats_if_moved(adds: bool, seats: u64) -> u64
    requires { (0 < seats) × (seats_if_moved adds seats ≤ house_limit) }
    ensures { result ≡ seats_if_moved adds seats }
{
    if adds { seats + 1 } else { seats - 1 }
}

// What the state does that goes from so many seats to so many.
#[tactic(auto, unfolding(crate::specs::Work::verb_text))]
fn put_verb(page: &mut Page, from: u64, to: u64)
    ensures { Appended page.old (verb_text from to) page.new }
{
    if from < to {
        page.put_bytes(b",gains,");
    } else {
        page.put_bytes(b",gives up,");
    }
}

// A state whose lines are written: its name and population, and what its departures are told from beside them, the sum of the populations
// and the house.
#[derive(Clone, Copy)]
pub struct State<'a> {
    pub name: &'a [u8],
    pub population: u64,
    pub sum: u64,
    pub house: u64,
}

impl State<'_> {
    // Its departure with so many seats, or `none` where that is no seat.
    fn put_departure(self, page: &mut Page, seats: u64)
        requires { InLimits self.population seats self.sum self.house }
        ensures { Appended page.old (departure_text self.entry.population seats self.entry.sum self.entry.house) page.new }
    {
        answers::put_departure(
            page,
            departure_of(self.population, seats, self.sum, self.house),
        );
    }

    // With its seats and departure, on a line that starts with `word`.
    pub fn put_line(self, page: &mut Page, word: &[u8], seats: u64)
        requires { InLimits self.population seats self.sum self.house }
        ensures { Appended page.old
            (state_line word.now self.entry.name.now self.entry.population seats self.entry.sum self.entry.house) page.new }
    {
        page.put_bytes(word);
        page.put_bytes(self.name);
        text::put_numbers(page, self.population, seats);
        page.put_byte(b',');
        self.put_departure(page, seats);
        page.put_byte(b'\n');
    }

    // With its seats and departure before a move and after it.
    fn put_moved(self, page: &mut Page, from: u64, to: u64)
        requires { InLimits self.population from self.sum self.house × InLimits self.population to self.sum self.house }
        ensures { Appended page.old
            (moved_text self.entry.name.now self.entry.population from to self.entry.sum self.entry.house) page.new }
    {
        page.put_bytes(self.name);
        text::put_numbers(page, from, to);
        page.put_byte(b',');
        self.put_departure(page, from);
        page.put_byte(b',');
        self.put_departure(page, to);
    }

    // Weighed before a step: as it is, and as it would be if it moved.
    pub fn put_weighed(self, page: &mut Page, step: u64, seats: u64, moved: u64)
        requires { InLimits self.population seats self.sum self.house × InLimits self.population moved self.sum self.house }
        ensures { Appended page.old
            (weighed_line step self.entry.name.now self.entry.population seats moved self.entry.sum self.entry.house) page.new }
    {
        page.put_bytes(b"weighed,");
        page.put_decimal(step);
        page.put_byte(b',');
        self.put_moved(page, seats, moved);
        page.put_byte(b'\n');
    }

    // A step that it made: its seats and departures before and after, and the total afterwards.
    pub fn put_step(self, page: &mut Page, step: u64, from: u64, to: u64, total: u64)
        requires { InLimits self.population from self.sum self.house × InLimits self.population to self.sum self.house }
        ensures { Appended page.old
            (step_line step self.entry.name.now self.entry.population from to self.entry.sum self.entry.house total) page.new }
    {
        page.put_bytes(b"step,");
        page.put_decimal(step);
        put_verb(page, from, to);
        self.put_moved(page, from, to);
        page.put_byte(b',');
        page.put_decimal(total);
        page.put_byte(b'\n');
    }
}
