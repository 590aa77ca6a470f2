// A line of two fields: a state's name and population, or `total` and the sum.
ghost use Rattle.std.specs.Prelude.{◌≡◌, ◌≤◌, length, IfOk};
ghost use Rattle.apportionment.specs.Limits.{sum_limit};
ghost use Rattle.apportionment.specs.Refusals.{refusal_of};
ghost use Rattle.lines.specs.Lines.{name_at, pair_formed, state_refusal, closing_refusal};
ghost use Rattle.lines.specs.inner.Lines.{entry_refusal};
ghost use Rattle.lines.specs.inner.Cut.{line_read};

use crate::fingerprints::read_field;
use crate::names::Names;
use apportionment::refusals::Refusal;
use apportionment::{SUM_LIMIT, outside};
use fields::{cut, numbers, words};

// What a state's line says: the population, the name's fingerprint and length, and the place where the line ends.
#[derive(Clone, Copy)]
pub struct StateLine {
    pub population: u64,
    pub print: u32,
    pub width: usize,
    pub end: usize,
}

// The name on the first line of what is left.
pub fn name_at(s: &[u8]) -> &[u8]
    ensures { result.now ≡ name_at s.now }
{
    cut::field(cut::line(s))
}

// Whether a line is ended, its first field passes its own test, and a number follows.
fn is_pair(ended: bool, passes: bool, digits: &[u8]) -> bool
    ensures { result ≡ pair_formed ended passes digits.now }
{
    ended & passes & numbers::is_number(digits)
}

// Checks a well-formed state's line, by whether its name was used and by its population, after lines that sum to `sum`.
fn check_entry(used: bool, sum: u64, p: u64) -> Result<(), Refusal>
    requires { sum ≤ sum_limit }
    ensures { refusal_of result ≡ entry_refusal used sum p }
{
    if outside(SUM_LIMIT, p) {
        return Err(Refusal::NumberOutOfLimits);
    }
    if used {
        return Err(Refusal::NameUsed);
    }
    if SUM_LIMIT < sum + p {
        return Err(Refusal::RunningSumTooLarge);
    }
    Ok(())
}

// Reads a state's line after others, whose names are given and which sum to `sum`.
pub fn read_state(names: Names, sum: u64, s: &[u8]) -> Result<StateLine, Refusal>
    requires { sum ≤ sum_limit }
    ensures refusal { refusal_of result ≡ state_refusal names.entry.first.now (length names.entry.prints.now) sum s.now }
    ensures read { IfOk result (λ line. line ≡ line_read s.now) }
{
    let end = cut::line_end(s);
    let line = cut::line_to(s, end);
    let field = read_field(line);
    let name = cut::field_to(line, field.end);
    let digits = cut::fields_from(line, field.end);
    if !is_pair(
        cut::is_ended(s, end),
        words::is_name(name, field.plain),
        digits,
    ) {
        return Err(Refusal::LineIllFormed);
    }
    let population = numbers::value(digits);
    check_entry(names.hold(name, field.print), sum, population)?;
    Ok(StateLine {
        population,
        print: field.print,
        width: name.len(),
        end,
    })
}

// Checks the closing line after states that sum to `sum`.
pub fn check_closing(sum: u64, s: &[u8]) -> Result<(), Refusal>
    ensures { refusal_of result ≡ closing_refusal sum s.now }
{
    let end = cut::line_end(s);
    let line = cut::line_to(s, end);
    let comma = cut::field_end(line);
    let word = cut::field_to(line, comma);
    let digits = cut::fields_from(line, comma);
    if !is_pair(cut::is_ended(s, end), word == b"total".as_slice(), digits) {
        return Err(Refusal::LineIllFormed);
    }
    let total = numbers::value(digits);
    if outside(SUM_LIMIT, total) {
        return Err(Refusal::NumberOutOfLimits);
    }
    if total != sum {
        return Err(Refusal::TotalDiffers);
    }
    Ok(())
}
