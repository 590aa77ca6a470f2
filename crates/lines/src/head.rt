// Line 1: `register`, method, house, count of states.
ghost use Rattle.std.specs.Prelude.{◌≡◌};
ghost use Rattle.lines.specs.Lines.{head_formed, head_of, head_outcome};
ghost use Rattle.lines.specs.inner.Lines.{head_says};

use apportionment::refusals::Refusal;
use apportionment::{HOUSE_LIMIT, Method, STATE_LIMIT, outside};
use fields::{cut, numbers, words};

// What line 1 says.
#[derive(Clone, Copy)]
pub struct Head {
    pub method: Method,
    pub house: u64,
    pub states: usize,
}

// Whether a head of these parts is well-formed.
fn is_head(ended: bool, word: &[u8], method: &[u8], house: &[u8], count: &[u8]) -> bool
    ensures { result ≡ head_formed ended word.now method.now house.now count.now }
{
    ended
        & (word == b"register".as_slice())
        & words::is_method_field(method)
        & numbers::is_number(house)
        & numbers::is_number(count)
}

// What a well-formed head says: its method must be known, its house and its count within their limits.
fn says(named: Option<Method>, house: u64, states: u64) -> Result<Head, Refusal>
    ensures { head_outcome result ≡ head_says named house states }
{
    let Some(method) = named else {
        return Err(Refusal::MethodUnknown);
    };
    if outside(HOUSE_LIMIT, house) {
        return Err(Refusal::NumberOutOfLimits);
    }
    if outside(STATE_LIMIT as u64, states) {
        return Err(Refusal::NumberOutOfLimits);
    }
    Ok(Head {
        method,
        house,
        states: states as usize,
    })
}

// Reads line 1. It stays a function of its own: put into its caller it would stand before the loop over the states, whose inner loops the
// compiler then lays out worse.
#[inline(never)]
pub fn read_head(s: &[u8]) -> Result<Head, Refusal>
    ensures { head_outcome result ≡ head_of s.now }
{
    let end = cut::line_end(s);
    let line = cut::line_to(s, end);
    let first = cut::field_end(line);
    let word = cut::field_to(line, first);
    let later = cut::fields_from(line, first);
    let second = cut::field_end(later);
    let method = cut::field_to(later, second);
    let last = cut::fields_from(later, second);
    let third = cut::field_end(last);
    let house = cut::field_to(last, third);
    let count = cut::fields_from(last, third);
    if !is_head(cut::is_ended(s, end), word, method, house, count) {
        return Err(Refusal::LineIllFormed);
    }
    says(
        words::method_named(method),
        numbers::value(house),
        numbers::value(count),
    )
}
