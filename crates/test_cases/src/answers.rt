// Telling an answer piece by piece. Nothing is written into a buffer, which would take four times as long to prove.
ghost use Rattle.std.specs.Counts.{IsPrefixLen};

use crate::output::say;
use crate::parts::front;
use departure::Shown;
use writing::Page;

// An answer that is held to what is expected of it: each piece that is told must stand there next. The first one that does not is written
// out, and so is all that follows it.
#[derive(Clone, Copy)]
pub struct Telling<'a> {
    // What is still to be told; none once a piece differed.
    expected: Option<&'a [u8]>,
}

impl<'a> Telling<'a> {
    pub fn new(expected: &'a [u8]) -> Self {
        Telling {
            expected: Some(expected),
        }
    }

    // Whether all that was expected was told, and nothing else.
    pub fn is_whole(self) -> bool {
        matches!(self.expected, Some([]))
    }

    pub fn tell(&mut self, rt: &impl Print, piece: &[u8]) {
        if let Some(expected) = self.expected {
            self.expected = expected.strip_prefix(piece);
            if self.expected.is_some() {
                return;
            }
            say(rt, b": not so, ");
        }
        say(rt, piece);
    }

    pub fn tell_number(&mut self, rt: &impl Print, n: u64) {
        let mut digits = [0u8; 20];
        let mut page = Page::new(&mut digits);
        page.put_decimal(n);
        let size = page.place();
        self.tell(rt, front(rt, &digits, size));
    }

    // A number after a bar.
    pub fn tell_field(&mut self, rt: &impl Print, n: u64) {
        self.tell(rt, b"|");
        self.tell_number(rt, n);
    }

    // A list after a bar, its numbers parted by blanks.
    pub fn tell_list(&mut self, rt: &impl Print, xs: &[u64]) {
        self.tell(rt, b"|");
        if let Some((first, others)) = xs.split_first() {
            self.tell_number(rt, *first);
            for x in others {
                self.tell(rt, b" ");
                self.tell_number(rt, *x);
            }
        }
    }

    // A list without the zeros at its end.
    pub fn tell_used(&mut self, rt: &impl Print, xs: &[u64]) {
        self.tell_list(rt, &xs[..used(xs)]);
    }

    // A shown departure and its mark.
    pub fn tell_shown(&mut self, rt: &impl Print, exact: Shown) {
        let mut words = [0u8; 64];
        let mut page = Page::new(&mut words);
        text::put_shown(&mut page, exact.shown);
        page.put_byte(b',');
        text::put_mark(&mut page, exact.mark);
        let size = page.place();
        self.tell(rt, front(rt, &words, size));
    }
}

// How many places of a list lie before the zeros at its end.
fn used(xs: &[u64]) -> usize
    ensures { IsPrefixLen result xs.now }
{
    match xs.iter().rposition(|&x| x != 0) {
        Some(last) => last + 1,
        None => 0,
    }
}
