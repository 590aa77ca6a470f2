// Sizes of departures and claims by them, as leximin orders them: exact comparisons of two fractions in machine words.
#![tactic(auto)]

pub mod quotients;

ghost use Rattle.std.specs.Prelude.{◌≡◌, ◌+◌};
ghost use Rattle.sizes.specs.inner.Sizes.{WithSeats, SizeIs, less_size, Small, first_then, ClaimIs, less_claim, SmallClaim};

// A size |p H - a P| / a. The factor P of its denominator is the same for every size of a problem, so it is left out, and products of
// two such numbers stay below 2^63. It has no `Ord`, whose methods ask nothing of two values and call only equal pairs of numbers equal:
// the products below fit for small sizes alone, and 1 / 2 and 2 / 4 are equal sizes.
#[derive(Clone, Copy)]
pub struct Size {
    pub over: u64,
    pub under: u64,
}

// The two sizes of a claim: at the seats that the state has, and with one more. It has no `Ord`, for the reasons that a size has none.
#[derive(Clone, Copy)]
pub struct Claim {
    pub old: Size,
    pub new: Size,
}

pub fn size_of(population: u64, seats: u64, total: u64, house: u64) -> Size
    requires { WithSeats population seats total house }
    ensures { SizeIs population seats total house result }
{
    Size {
        over: (population * house).abs_diff(seats * total),
        under: seats,
    }
}

#[tactic(auto, unfolding(crate::specs::inner::Sizes::less_size))]
pub fn size_less(s: Size, t: Size) -> bool
    requires { Small s × Small t }
    ensures { result ≡ less_size s t }
{
    s.over * t.under < t.over * s.under
}

// s is less than t or, where they are equal, u is less than v.
#[tactic(auto, unfolding(crate::specs::inner::Sizes::first_then))]
fn first_then(s: Size, t: Size, u: Size, v: Size) -> bool
    requires { (Small s × Small t) × (Small u × Small v) }
    ensures { result ≡ first_then s t u v }
{
    if size_less(s, t) {
        return true;
    }
    if size_less(t, s) {
        return false;
    }
    size_less(u, v)
}

pub fn claim_of(population: u64, seats: u64, total: u64, house: u64) -> Claim
    requires { WithSeats population (seats + 1) total house }
    ensures { ClaimIs population seats total house result }
{
    let old = size_of(population, seats, total, house);
    let new = size_of(population, seats + 1, total, house);
    Claim { old, new }
}

// One claim comes before the other.
#[tactic(auto, unfolding(crate::specs::inner::Sizes::less_claim))]
pub fn claim_less(own: Claim, other: Claim) -> bool
    requires { SmallClaim own × SmallClaim other }
    ensures { result ≡ less_claim own other }
{
    if size_less(own.new, own.old) {
        if size_less(other.new, other.old) {
            return first_then(other.old, own.old, own.new, other.new);
        }
        return true;
    }
    if size_less(other.new, other.old) {
        return false;
    }
    if size_less(own.old, own.new) {
        if size_less(other.old, other.new) {
            return first_then(own.new, other.new, other.old, own.old);
        }
        return false;
    }
    size_less(other.old, other.new)
}
