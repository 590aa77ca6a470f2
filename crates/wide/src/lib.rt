// The layer of exact arithmetic at the edges of a word: products of two 64-bit numbers compared where one word cannot hold them, and the
// size of a signed number.
#![tactic(auto)]

ghost use Rattle.std.specs.Prelude.{◌≡◌, true, ◌+◌, ◌*◌, ◌^◌, ◌<◌, ltb, nat_abs};

// Half a word: a number is split into two digits of base 2^32.
const HALF: u64 = 4_294_967_296;

// A number of two words.
#[derive(Clone, Copy)]
struct Wide {
    high: u64,
    low: u64,
}

// The whole product, by four multiplications of half words. No sum on the way passes a word. It is not `u128`, since the library has no
// integers of 128 bits (docs/BENCHMARKS.md).
fn product(a: u64, b: u64) -> Wide
    ensures { result.high * 2 ^ 64 + result.low ≡ a * b }
{
    let a_high = a / HALF;
    let a_low = a % HALF;
    let b_high = b / HALF;
    let b_low = b % HALF;
    let low = a_low * b_low;
    let left = a_high * b_low + low / HALF;
    let right = a_low * b_high + left % HALF;
    Wide {
        high: a_high * b_high + left / HALF + right / HALF,
        low: right % HALF * HALF + low % HALF,
    }
}

// a * b < c * d by whole products of two words each.
fn wide_less(a: u64, b: u64, c: u64, d: u64) -> bool
    ensures { result ≡ ltb (a * b) (c * d) }
{
    let left = product(a, b);
    let right = product(c, d);
    if left.high == right.high {
        left.low < right.low
    } else {
        left.high < right.high
    }
}

// Both are half words, so that one word holds their product. It says nothing where it answers false.
fn in_one_word(a: u64, b: u64) -> bool
    ensures { result ≡ true → a * b < 2 ^ 64 }
{
    if a < HALF {
        return b < HALF;
    }
    false
}

// Is a * b less than c * d? Exactly, for every four numbers: no product is cut to a word. Most claims have products of one word, which
// are multiplied as they are.
pub fn product_less(a: u64, b: u64, c: u64, d: u64) -> bool
    ensures { result ≡ ltb (a * b) (c * d) }
{
    if in_one_word(a, b) {
        if in_one_word(c, d) {
            return a * b < c * d;
        }
    }
    wide_less(a, b, c, d)
}

// A number without its sign. For every number, the least one too, whose size is no `i64`.
pub fn magnitude(n: i64) -> u64
    ensures { result ≡ nat_abs n }
{
    n.unsigned_abs()
}
