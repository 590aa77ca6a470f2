// Parts of a line.
ghost use Rattle.std.specs.Prelude.{◌-◌, ◌≤◌, length};

use crate::output::say;

pub const BAR: u8 = b'|';

// The first bytes of a buffer. Where it has no room for so many, that is told, and so the output differs.
pub fn front<'a>(rt: &impl Print, s: &'a [u8], size: usize) -> &'a [u8] {
    match s.get(..size) {
        Some(front) => front,
        None => {
            say(rt, b": THIS IS TOO LONG");
            s
        }
    }
}

// What stands before the first byte `b` and what stands after it: all, and nothing, where there is none.
pub fn split_once(s: &[u8], b: u8) -> (&[u8], &[u8])
    ensures { length result.1.now ≤ length s.now - 1 }
{
    match s.iter().position(|&x| x == b) {
        Some(place) => (&s[..place], &s[place + 1..]),
        None => (s, &[]),
    }
}

// What stands after the first `k` bars.
pub fn after_bars(s: &[u8], k: usize) -> &[u8] {
    (0..k).fold(s, |rest, _| split_once(rest, BAR).1)
}

// The part after the first `k` bars, up to the next one.
pub fn field(s: &[u8], k: usize) -> &[u8] {
    s.split(|&b| b == BAR).nth(k).unwrap_or(&[])
}
