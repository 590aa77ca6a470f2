// Leximin's work, shown: the text of a placing's start, of each step with what was weighed before it, and of its end. The work is leximin's
// whatever method a register names; the first line says so. A caller writes one block at a time to the front of a lent page, which has room
// for every block (specs/inner/Room.antt). Each placing is one that opening and steps gave; specs/inner/Showable.antt says what it offers.
#![tactic(auto)]

mod rows;

ghost use Rattle.std.specs.Prelude.{◌≡◌, ◌≤◌, length};
ghost use Rattle.apportionment.specs.Limits.{state_limit};
ghost use Rattle.writing.specs.inner.Page.{Appended};
ghost use Rattle.writing.specs.inner.Writing.{Wrote};
ghost use Rattle.showing.specs.Work.{first_difference, moved_at, states_text, start_text, end_text, weighed_text, step_text, move_text};
ghost use Rattle.showing.specs.inner.Showable.{Showable, ShowableStep};

use apportionment::STATE_LIMIT;
use placing::Placing;
use register::rows::{first_name, name_on, rest};
use rows::{State, put_head, seats_if_moved};
use writing::Page;

// The room of the longest line of a state weighed, and of a step; specs/inner/Room.antt says what each is made of.
const WEIGHED_ROOM: usize = 81;

const STEP_ROOM: usize = 93;

// Room for every block: each state weighed, and a step.
pub const PAGE_ROOM: usize = STATE_LIMIT * WEIGHED_ROOM + STEP_ROOM;

// A placing whose work is shown, with the register from the first state's line on and the sum of the populations.
#[derive(Clone, Copy)]
struct Work<'a> {
    rows: &'a [u8],
    placing: Placing,
    sum: u64,
    ghost fit: { Showable rows.now placing sum },
}

impl Work<'_> {
    // The states, each with its seats and departure on a line that starts with `word`, and the totals.
    fn put_states(&self, page: &mut Page, word: &[u8])
        ensures { Appended page.old (states_text word.now self.now.rows.now self.now.placing self.now.sum) page.new }
    {
        let n = self.placing.states;
        let mut row = self.rows;
        for (population, held) in self.placing.populations[..n]
            .iter()
            .zip(&self.placing.seats[..n])
        {
            let state = State {
                name: first_name(row),
                population: *population,
                sum: self.sum,
                house: self.placing.house,
            };
            state.put_line(page, word, *held);
            row = rest(row);
        }
        text::put_total(page, self.sum, self.placing.total);
    }

    // Every state weighed before the step with this number.
    fn put_weighed(&self, page: &mut Page, step: u64)
        ensures { Appended page.old (weighed_text step self.now.rows.now self.now.placing self.now.sum) page.new }
    {
        let adds = self.placing.total < self.placing.house;
        let n = self.placing.states;
        let mut row = self.rows;
        for (population, held) in self.placing.populations[..n]
            .iter()
            .zip(&self.placing.seats[..n])
        {
            let state = State {
                name: first_name(row),
                population: *population,
                sum: self.sum,
                house: self.placing.house,
            };
            state.put_weighed(page, step, *held, seats_if_moved(adds, *held));
            row = rest(row);
        }
    }

    // The step of the state that moved from this placing to the next.
    fn put_step(&self, page: &mut Page, after: &Placing)
        requires { ShowableStep self.now.rows.now self.now.placing after.now self.now.sum }
        ensures { Appended page.old
            (step_text (moved_at self.now.placing after.now) self.now.rows.now self.now.placing after.now self.now.sum) page.new }
    {
        let place = moved_at(&self.placing, after);
        let state = State {
            name: name_on(self.rows, place),
            population: self.placing.populations[place],
            sum: self.sum,
            house: self.placing.house,
        };
        state.put_step(
            page,
            after.steps,
            self.placing.seats[place],
            after.seats[place],
            after.total,
        );
    }
}

// The first place where two lists of one length differ, or their length.
fn first_difference(xs: &[u64], ys: &[u64]) -> usize
    requires { length ys.now ≡ length xs.now }
    ensures { result ≡ first_difference xs.now ys.now }
{
    xs.iter()
        .zip(ys)
        .position(|(x, y)| x != y)
        .unwrap_or(xs.len())
}

// The place of the state that moved between two placings.
fn moved_at(before: &Placing, after: &Placing) -> usize
    requires { (before.now.states ≤ state_limit) × (after.now.states ≡ before.now.states) }
    ensures { result ≡ moved_at before.now after.now }
{
    let n = before.states;
    first_difference(&before.seats[..n], &after.seats[..n])
}

// The start, from the front of the buffer on; the place after it. `rows` is the register from the first state's line on, and `sum` the sum
// of the populations, here and below.
pub fn put_start(out: &mut [u8], rows: &[u8], placing: Placing, sum: u64) -> usize
    requires { Showable rows.now placing sum }
    ensures { Wrote out.old 0 (start_text rows.now placing sum) out.new result }
{
    let work = Work { rows, placing, sum };
    let mut page = Page::new(out);
    put_head(&mut page, placing.house, placing.states as u64);
    work.put_states(&mut page, b"start,");
    page.place()
}

// The end.
pub fn put_end(out: &mut [u8], rows: &[u8], placing: Placing, sum: u64) -> usize
    requires { Showable rows.now placing sum }
    ensures { Wrote out.old 0 (end_text rows.now placing sum) out.new result }
{
    let work = Work { rows, placing, sum };
    let mut page = Page::new(out);
    work.put_states(&mut page, b"end,");
    page.place()
}

// A step from one placing to the next: what was weighed before it, and which state moved.
pub fn put_move(out: &mut [u8], rows: &[u8], before: Placing, after: Placing, sum: u64) -> usize
    requires { ShowableStep rows.now before after sum }
    ensures { Wrote out.old 0 (move_text rows.now before after sum) out.new result }
{
    let work = Work {
        rows,
        placing: before,
        sum,
    };
    let mut page = Page::new(out);
    work.put_weighed(&mut page, after.steps);
    work.put_step(&mut page, &after);
    page.place()
}
