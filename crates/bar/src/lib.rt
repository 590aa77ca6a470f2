// The search for the bar: the precedence that parts the states which have one of the seats that are left from those which have none. It
// compares precedences and knows nothing else of them.
#![tactic(auto)]

ghost use Rattle.std.specs.Prelude.{◌≡◌, ◌≤◌, ◌<◌, min, max, length};
ghost use Rattle.bar.specs.inner.Reaching.{reaching};
ghost use Rattle.bar.specs.inner.Search.{DrawnUp, DrawnDown, HoldsBar, Narrower, Searchable, BarFound};

use std::cmp::{max, min};

// How many states have a precedence of `least` or more.
fn reaching(precedences: &[u64], least: u64) -> u64
    ensures { result ≡ reaching precedences.now least (length precedences.now) }
{
    precedences.iter().map(|own| u64::from(least <= *own)).sum()
}

// Where the bar lies: from `low` to `high`, with so many states above `high`. The other two only say whether drawing an end in pays, and no
// proof relies on them: it does where at most `over` states are above a new upper end, or at least `from` at a new lower one or above.
#[derive(Clone, Copy)]
pub struct Range {
    pub low: u64,
    pub high: u64,
    pub above: u64,
    pub over: u64,
    pub from: u64,
}

// The lower end of what is left of a range: `low` or, where no state was cut off or few at first, the least precedence from `low` to
// `high`, and `high` where there is none, so that equal precedences do not keep the ends apart. No state is at `low` or above it and below
// the answer.
fn lower_end(precedences: &[u64], low: u64, high: u64, loose: bool) -> u64
    requires { low ≤ high }
    ensures { DrawnUp precedences.now low high (length precedences.now) result }
{
    if !loose {
        return low;
    }
    let mut best = high;
    for &own in precedences {
        let end = if own < low { high } else { own };
        best = min(best, end);
    }
    best
}

// The upper end, in the same way from above. The two stand apart: one function with a direction, or with closures for the comparisons,
// would be no plainer.
fn upper_end(precedences: &[u64], low: u64, high: u64, loose: bool) -> u64
    requires { low ≤ high }
    ensures { DrawnDown precedences.now low high (length precedences.now) result }
{
    if !loose {
        return high;
    }
    let mut best = low;
    for &own in precedences {
        let end = if high < own { low } else { own };
        best = max(best, end);
    }
    best
}

// What is left of a range that is parted at `middle`: `middle` itself where just `left` states are above it.
fn parted(precedences: &[u64], left: u64, range: Range, middle: u64) -> Range
    requires { HoldsBar precedences.now left range × (range.low ≤ middle) × (middle < range.high) }
    ensures { HoldsBar precedences.now left result × Narrower result range }
{
    let low = range.low;
    let high = range.high;
    let above = reaching(precedences, middle + 1);
    if above == left {
        return Range {
            low: middle,
            high: middle,
            above,
            over: above,
            from: above,
        };
    }
    if above < left {
        let end = upper_end(precedences, low, middle, above <= range.over);
        return Range {
            low,
            high: end,
            above,
            over: above,
            from: range.from,
        };
    }
    let end = lower_end(precedences, middle + 1, high, range.from <= above);
    Range {
        low: end,
        high,
        above: range.above,
        over: range.over,
        from: above,
    }
}

// Where the bar would be if the precedences were spread evenly.
fn first_guess(low: u64, high: u64, left: u64, states: u64) -> u64
    requires { (low < high) × (left ≤ states) × (0 < states) }
    ensures { (low ≤ result) × (result < high) }
{
    let last = high - 1;
    last - (last - low) / states * left
}

// Where the bar would be if the states stood in the order of their precedences, rising or falling. Only a guess: no proof relies on it.
fn in_order(precedences: &[u64], left: u64) -> u64 {
    let place = left as usize;
    if precedences.len() <= place {
        return 0;
    }
    let last = precedences.len() - 1;
    if precedences[0] < precedences[last] {
        return precedences[last - place];
    }
    precedences[place]
}

// Where to part a range next: at the guess where that is below the upper end; just below it where it is the upper end, to see whether the
// bar is the guess itself, as it is where several states stand there; and else in the middle.
fn next_guess(low: u64, high: u64, guess: u64) -> u64
    requires { low < high }
    ensures { (low ≤ result) × (result < high) }
{
    if guess == high {
        return high - 1;
    }
    if low <= guess && guess < high {
        return guess;
    }
    low + (high - low) / 2
}

// One state in so many is few: where the first guess cuts off no more than that, drawing the end in at once saves more than it costs.
const FEW_IN: u64 = 32;

// The bar: a precedence with at most `left` states above it, and at least as many at it or above. What lies between the least and the
// greatest precedence is parted at two guesses, and then halved, until one number is left.
pub fn bar_of(precedences: &[u64], left: u64, least: u64, greatest: u64) -> Range
    requires { Searchable precedences.now left least greatest }
    ensures { BarFound precedences.now left result }
{
    let states = precedences.len() as u64;
    let few = states / FEW_IN;
    let most = states - few;
    let all = Range {
        low: least,
        high: greatest,
        above: 0,
        over: few,
        from: most,
    };
    if least == greatest {
        return all;
    }
    let guess = first_guess(least, greatest, left, states);
    let second = in_order(precedences, left);
    let mut range = parted(precedences, left, all, guess);
    while range.low < range.high {
        let middle = next_guess(range.low, range.high, second);
        range = parted(precedences, left, range, middle);
    }
    range
}
