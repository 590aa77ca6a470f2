// The layer of signposts: the table that gives them; claims, which are the order d(a) / w of a state's next seat as a fraction of two
// words; their exact comparison; and which state moves first by them.
#![tactic(auto)]

pub mod order;
mod table;

ghost use Rattle.std.specs.Prelude.{◌≡◌, ◌*◌, ◌≤◌, ltb};
ghost use Rattle.apportionment.specs.Limits.{sum_limit};
ghost use Rattle.apportionment.specs.Divisor.{weight_of};
ghost use Rattle.signposts.specs.inner.Claims.{claim_for, ClaimFits};

use crate::table::signpost_of;
use apportionment::DivisorMethod;

// A claim d(a) / w; also a signpost d(a), the claim of a weight of 1. It has no `Ord`, since claims may be level and yet differ, as 1 / 2
// and 2 / 4.
#[derive(Clone, Copy)]
pub struct Claim {
    pub over: u64,
    pub under: u64,
}

// A population as the method's quotient counts it; Hill's squared.
#[tactic(auto, unfolding(apportionment::specs::Divisor::weight_of))]
pub fn weight_of(method: DivisorMethod, population: u64) -> u64
    requires { population ≤ sum_limit }
    ensures { result ≡ weight_of method population }
{
    match method {
        DivisorMethod::Hill => population * population,
        _ => population,
    }
}

// The claim of a state with so many seats to one more.
#[tactic(auto, using(crate::specs::inner::Claims::under_fits), unfolding(apportionment::specs::Divisor::claim_of))]
pub fn claim_of(method: DivisorMethod, population: u64, seats: u64) -> Claim
    requires { ClaimFits population seats }
    ensures { result ≡ claim_for method population seats }
{
    let signpost = signpost_of(method, seats);
    let under = weight_of(method, population) * signpost.under;
    Claim {
        over: signpost.over,
        under,
    }
}

// s comes before t, exactly: under Hill and Dean the products pass 64 bits.
pub fn claim_less(s: Claim, t: Claim) -> bool
    ensures { result ≡ ltb (s.over * t.under) (t.over * s.under) }
{
    wide::product_less(s.over, t.under, t.over, s.under)
}
