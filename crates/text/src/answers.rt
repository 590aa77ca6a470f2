// What the departure operation answers, as text: the one way in which listings and leximin's work show a state's departure. An answer of
// numbers within the limits is written as document 01's departure and mark (specs/inner/Departures.antt).
ghost use Rattle.std.proofs.Math.Option.{Option-elim};
ghost use Rattle.apportionment.specs.Text.{bytes_of};
ghost use Rattle.apportionment.specs.Quantities.{shown_text, mark_text};
ghost use Rattle.departure.specs.Answer.{shown_in, mark_in};
ghost use Rattle.writing.specs.inner.Page.{Appended};

use crate::put_shown;
use apportionment::Mark;
use apportionment::refusals::Refusal;
use departure::Shown;
use writing::Page;

// The shown departure, or `none` where there is none.
pub fn put_departure(page: &mut Page, answer: Result<Option<Shown>, Refusal>)
    ensures { Appended page.old (Option-elim (shown_in answer) (bytes_of "none") shown_text) page.new }
{
    match answer {
        Ok(Some(exact)) => put_shown(page, exact.shown),
        Ok(None) => page.put_bytes(b"none"),
        Err(_) => page.put_bytes(b"none"),
    }
}

// The word of the mark, or `none` where there is none.
pub fn put_mark(page: &mut Page, answer: Result<Option<Shown>, Refusal>)
    ensures { Appended page.old (Option-elim (mark_in answer) (bytes_of "none") mark_text) page.new }
{
    match answer {
        Ok(Some(exact)) => crate::put_mark(page, exact.mark),
        Ok(None) => crate::put_mark(page, Mark::None),
        Err(_) => page.put_bytes(b"none"),
    }
}
