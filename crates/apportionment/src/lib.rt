// The ground layer: the words of the trade (methods, marks, limits) and, in specs/, what each of them means.
// Every other crate states its contracts by the definitions of this crate's specs/.
#![tactic(auto)]

pub mod methods;
pub mod refusals;

ghost use Rattle.std.specs.Prelude.{◌≡◌};
ghost use Rattle.apportionment.specs.Refusals.{within, outside};

// The eight methods, in the order in which document 01 names them; quota joined them last.
#[derive(Clone, Copy, Debug, PartialEq, Eq, Hash)]
pub enum Method {
    Leximin,
    Adams,
    Dean,
    Hill,
    Webster,
    Jefferson,
    Remainders,
    Quota,
}

// The five of them that meet claims in order by signposts d(a).
#[derive(Clone, Copy, Debug, PartialEq, Eq, Hash)]
pub enum DivisorMethod {
    Adams,
    Dean,
    Hill,
    Webster,
    Jefferson,
}

// How far a state's departure goes; None where the state has no seat.
#[derive(Clone, Copy, Debug, PartialEq, Eq, Hash)]
pub enum Mark {
    In,
    High,
    Over,
    None,
}

// The limits, each also named in specs/Limits.antt.
pub const STATE_LIMIT: usize = 800;

pub const HOUSE_LIMIT: u64 = 30_000;

pub const SUM_LIMIT: u64 = 4_294_967_295;

pub const REGISTER_LIMIT: usize = 65_536;

// A number is at least 1 and at most the limit.
pub fn within(limit: u64, number: u64) -> bool
    ensures { result ≡ within limit number }
{
    (1..=limit).contains(&number)
}

pub fn outside(limit: u64, number: u64) -> bool
    ensures { result ≡ outside limit number }
{
    !within(limit, number)
}
