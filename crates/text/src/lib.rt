// The words, numbers and lines of the desk's texts, written on a page of crate `writing`.
#![tactic(auto)]

pub mod answers;

ghost use Rattle.apportionment.specs.Methods.{method_text};
ghost use Rattle.apportionment.specs.Quantities.{shown_size_text, shown_text, mark_text};
ghost use Rattle.writing.specs.inner.Page.{Appended};
ghost use Rattle.text.specs.Shared.{numbers_text, head_line, total_line, refusal_line};

use apportionment::{Mark, Method};
use writing::Page;

// A shown size: per cent, with a point and three digits after it.
pub fn put_shown_size(page: &mut Page, size: u64)
    ensures { Appended page.old (shown_size_text size) page.new }
{
    page.put_decimal(size / 1000);
    page.put_byte(b'.');
    page.put_digit(size / 100 % 10);
    page.put_digit(size / 10 % 10);
    page.put_digit(size % 10);
}

// A shown departure: a minus sign below zero, no plus sign.
pub fn put_shown(page: &mut Page, shown: i64)
    ensures { Appended page.old (shown_text shown) page.new }
{
    if shown < 0 {
        page.put_byte(b'-');
    }
    put_shown_size(page, shown.unsigned_abs());
}

// The word of a mark.
#[tactic(auto, unfolding(apportionment::specs::Quantities::mark_text))]
pub fn put_mark(page: &mut Page, mark: Mark)
    ensures { Appended page.old (mark_text mark) page.new }
{
    match mark {
        Mark::In => page.put_bytes(b"in"),
        Mark::High => page.put_bytes(b"high"),
        Mark::Over => page.put_bytes(b"over"),
        Mark::None => page.put_bytes(b"none"),
    }
}

// The word of a method, as registers and listings spell it.
pub fn put_method(page: &mut Page, method: Method)
    ensures { Appended page.old (method_text method) page.new }
{
    page.put_bytes(method.word());
}

// Two numbers, each after a comma.
pub fn put_numbers(page: &mut Page, x: u64, y: u64)
    ensures { Appended page.old (numbers_text x y) page.new }
{
    page.put_byte(b',');
    page.put_decimal(x);
    page.put_byte(b',');
    page.put_decimal(y);
}

// Line 1 of a text: its word, the method, the house and the number of states.
pub fn put_head(page: &mut Page, word: &[u8], method: Method, house: u64, states: u64)
    ensures { Appended page.old (head_line word.now method house states) page.new }
{
    page.put_bytes(word);
    page.put_byte(b',');
    put_method(page, method);
    put_numbers(page, house, states);
    page.put_byte(b'\n');
}

// The line of totals: P, and the seats allotted.
pub fn put_total(page: &mut Page, total: u64, allotted: u64)
    ensures { Appended page.old (total_line total allotted) page.new }
{
    page.put_bytes(b"total");
    put_numbers(page, total, allotted);
    page.put_byte(b'\n');
}

// The one line of a refusal.
pub fn put_refusal(page: &mut Page, number: u64, line: u64)
    ensures { Appended page.old (refusal_line number line) page.new }
{
    page.put_bytes(b"refused");
    put_numbers(page, number, line);
    page.put_byte(b'\n');
}
