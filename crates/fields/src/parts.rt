// Parts of a run of bytes.
ghost use Rattle.std.specs.Prelude.{◌≡◌, ◌+◌, ◌≤◌, length, drop};
ghost use Rattle.fields.specs.Grammar.{place_of};

// The place of the first byte `b`, or the length where there is none.
pub fn place_of(s: &[u8], b: u8) -> usize
    ensures { result ≡ place_of b s.now }
{
    s.iter().position(|x| *x == b).unwrap_or(s.len())
}

// The bytes past place `e`; none where that is the end. Lines and fields share it: the range written out at both would be no plainer. A
// test and no minimum, so that after one whether a line is ended the compiler makes none.
pub fn past(s: &[u8], e: usize) -> &[u8]
    requires { e ≤ length s.now }
    ensures { result.now ≡ drop (e + 1) s.now }
{
    if e < s.len() { &s[e + 1..] } else { &s[e..] }
}
