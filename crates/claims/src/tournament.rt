// A tournament: a list of two places an entrant, in which entrant i stands at its leaf, place n + i, and the better of those at places 2k
// and 2k + 1 stands at place k. The first of all stands at the root, place 1. What the entrants are, and which of two comes first, the
// caller says (`Contest`); how many bytes a place takes, the list does (`Entry`).
ghost use Rattle.std.specs.Prelude.{◌≡◌, ℕ, Bool, List, ◌+◌, ◌*◌, ◌/◌, ◌^◌, ◌<◌, ◌≤◌, length};
ghost use Rattle.claims.specs.inner.Tournament.{better, Winners};
ghost use Rattle.claims.specs.inner.TournamentReplay.{Planted, Replaying, Climbing};
ghost use Rattle.claims.specs.inner.TournamentEntries.{Reads, reads_itself};

// Who takes part, numbered from 0, and which of two comes first.
pub trait Contest {
    ghost entrants: { Self → ℕ };

    // The first of the two comes before the second.
    ghost before: { Self → ℕ → ℕ → Bool };

    fn entrants(&self) -> usize
        ensures { result ≡ entrants self.now };

    fn comes_before(&self, i: usize, j: usize) -> bool
        requires { (i < entrants self.now) × (j < entrants self.now) }
        ensures { result ≡ before self.now i j };

    // The better of two entrants: the earlier one, unless the later comes before it.
    fn better_of(&self, a: usize, b: usize) -> usize
        requires { (a < entrants self.now) × (b < entrants self.now) }
        ensures { result ≡ better (before self.now) a b }
    {
        if a < b {
            if self.comes_before(b, a) { b } else { a }
        } else if self.comes_before(a, b) {
            a
        } else {
            b
        }
    }
}

// The number of an entrant as a place of the list holds it.
pub trait Entry: Copy {
    // Numbers below it can be held.
    ghost limit: { ℕ };

    ghost number: { Self → ℕ };

    // The numbers that a list holds.
    ghost numbers: { List Self → List ℕ };

    ghost reads: { Reads number numbers };

    fn number(self) -> usize
        ensures { result ≡ number self };

    fn holding(entrant: usize) -> Self
        requires { entrant < limit }
        ensures { number result ≡ entrant };
}

impl Entry for usize {
    ghost limit = { 2 ^ 64 };

    ghost number = { λ x. x };

    ghost numbers = { λ t. t };

    ghost reads = { reads_itself };

    fn number(self) -> usize {
        self
    }

    fn holding(entrant: usize) -> usize {
        entrant
    }
}

// Two bytes a place: little to clear where few entrants play.
impl Entry for u16 {
    ghost limit = { 2 ^ 16 };

    ghost number = { λ x. x };

    ghost numbers = { λ t. t };

    ghost reads = { reads_itself };

    fn number(self) -> usize {
        self as usize
    }

    fn holding(entrant: usize) -> u16 {
        entrant as u16
    }
}

// Puts each entrant at its leaf.
pub fn plant<E: Entry>(entrants: usize, tree: &mut [E])
    requires size { length tree.old ≡ 2 * entrants }
    requires fits { entrants ≤ E.limit }
    ensures { Planted entrants entrants (E.numbers tree.new) }
{
    for i in 0..entrants {
        tree[entrants + i] = E::holding(i);
    }
}

// Decides every inner place between the two below it, from the last to the root.
fn build<C: Contest, E: Entry>(contest: &C, tree: &mut [E])
    requires planted { Planted (C.entrants contest.now) (C.entrants contest.now) (E.numbers tree.old) }
    requires fits { C.entrants contest.now ≤ E.limit }
    ensures { Winners (C.before contest.now) (C.entrants contest.now) (E.numbers tree.new) }
{
    for k in (1..contest.entrants()).rev() {
        let won = contest.better_of(tree[2 * k].number(), tree[2 * k + 1].number());
        tree[k] = E::holding(won);
    }
}

// Plays a whole tournament, whatever the list held before.
pub fn play<C: Contest, E: Entry>(contest: &C, tree: &mut [E])
    requires size { length tree.old ≡ 2 * C.entrants contest.now }
    requires fits { C.entrants contest.now ≤ E.limit }
    ensures { Winners (C.before contest.now) (C.entrants contest.now) (E.numbers tree.new) }
{
    plant(contest.entrants(), tree);
    build(contest, tree);
}

// Decides anew the places on the way up from the leaf of an entrant that has changed, with the winner so far in hand.
pub fn replay<C: Contest, E: Entry>(contest: &C, entrant: usize, tree: &mut [E])
    requires inside { entrant < C.entrants contest.now }
    requires due { Replaying (C.before contest.now) (C.entrants contest.now) ((C.entrants contest.now + entrant) / 2)
        (E.numbers tree.old) }
    requires fits { C.entrants contest.now ≤ E.limit }
    ensures { Winners (C.before contest.now) (C.entrants contest.now) (E.numbers tree.new) }
{
    let mut won = entrant;
    let mut k = contest.entrants() + entrant;
    while k > 1 {
        // Places 2k and 2k + 1 stand beside each other: their numbers differ in the last bit.
        let beside = k ^ 1;
        won = contest.better_of(won, tree[beside].number());
        k /= 2;
        tree[k] = E::holding(won);
    }
}
