// Lines, and the fields of a line.
ghost use Rattle.std.specs.Prelude.{◌≡◌};
ghost use Rattle.fields.specs.Grammar.{place_of};
ghost use Rattle.fields.specs.Grammar.{line_feed, comma, ended, without_return, line_of, rest_of, field_of, fields_after};

use crate::parts::{past, place_of};

const LF: u8 = 10;

const CR: u8 = 13;

const COMMA: u8 = 44;

// The place where the first line of what is left ends; the length where it has no end.
pub fn line_end(s: &[u8]) -> usize
    ensures { result ≡ place_of line_feed s.now }
{
    place_of(s, LF)
}

// Whether the first line, which ends at `end`, has an end.
pub fn is_ended(s: &[u8], end: usize) -> bool
    requires { end ≡ place_of line_feed s.now }
    ensures { result ≡ ended s.now }
{
    end < s.len()
}

// A line without the CR of its end.
fn without_return(s: &[u8]) -> &[u8]
    ensures { result.now ≡ without_return s.now }
{
    s.strip_suffix(&[CR]).unwrap_or(s)
}

// The first line of what is left, which ends at `end`, without its end.
pub fn line_to(s: &[u8], end: usize) -> &[u8]
    requires { end ≡ place_of line_feed s.now }
    ensures { result.now ≡ line_of s.now }
{
    without_return(&s[..end])
}

// What is left after the first line, which ends at `end`.
pub fn rest_from(s: &[u8], end: usize) -> &[u8]
    requires { end ≡ place_of line_feed s.now }
    ensures { result.now ≡ rest_of s.now }
{
    past(s, end)
}

// The first line of what is left, without its end.
pub fn line(s: &[u8]) -> &[u8]
    ensures { result.now ≡ line_of s.now }
{
    line_to(s, line_end(s))
}

// What is left after the first line.
pub fn rest(s: &[u8]) -> &[u8]
    ensures { result.now ≡ rest_of s.now }
{
    rest_from(s, line_end(s))
}

// The place where the first field of a line ends.
pub fn field_end(line: &[u8]) -> usize
    ensures { result ≡ place_of comma line.now }
{
    place_of(line, COMMA)
}

// The first field of a line, which ends at `end`.
pub fn field_to(line: &[u8], end: usize) -> &[u8]
    requires { end ≡ place_of comma line.now }
    ensures { result.now ≡ field_of line.now }
{
    &line[..end]
}

// What follows the first field, which ends at `end`, and its comma.
pub fn fields_from(line: &[u8], end: usize) -> &[u8]
    requires { end ≡ place_of comma line.now }
    ensures { result.now ≡ fields_after line.now }
{
    past(line, end)
}

// The first field of a line.
pub fn field(line: &[u8]) -> &[u8]
    ensures { result.now ≡ field_of line.now }
{
    field_to(line, field_end(line))
}
