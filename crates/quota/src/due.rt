// Which seats of the whole parts can be had from which number on: a state of population p with a seats is able to have one more at the
// numbers above a P / p.
ghost use Rattle.std.specs.Prelude.{◌≡◌, length};
ghost use Rattle.apportionment.specs.Lists.{sum};
ghost use Rattle.apportionment.specs.inner.Problem.{Problem};
ghost use Rattle.apportionment.specs.inner.WholeParts.{whole_parts};
ghost use Rattle.quota.specs.inner.Marks.{Markable, Marked, Ready};
ghost use Rattle.quota.specs.inner.Spots.{Onward, Moved};

// Where the next seat of a state is counted: a P / p as its whole part, which is the place, and what is left of it.
#[derive(Clone, Copy)]
pub struct Spot {
    pub place: u64,
    pub rest: u64,
}

// One seat on, by P / p: its whole part, and what is left of it. Adding is much faster than dividing for each seat.
fn onward(spot: Spot, whole: u64, left: u64, population: u64) -> Spot
    requires { Onward population whole left spot }
    ensures { Moved population whole left spot result }
{
    let place = spot.place + whole;
    let rest = spot.rest + left;
    if rest < population {
        return Spot { place, rest };
    }
    Spot {
        place: place + 1,
        rest: rest - population,
    }
}

// Counts each seat of one state's whole part at the first number from which the state is able to have it; number h has place h - 1.
fn mark(population: u64, total: u64, seats: u64, due: &mut [u16])
    requires { Markable population total seats due.old }
    ensures { Marked population total seats due.old due.new }
{
    let whole = total / population;
    let left = total % population;
    let mut spot = Spot { place: 0, rest: 0 };
    for _ in 0..seats {
        due[spot.place as usize] += 1;
        spot = onward(spot, whole, left, population);
    }
}

// Counts those of all states; `wholes` has their whole parts, and each place of `due` holds 0 at first.
pub fn mark_all(populations: &[u64], total: u64, wholes: &[u64], due: &mut [u16])
    requires problem { Problem populations.now total (length due.old) × (sum due.old ≡ 0) }
    requires wholes_value { wholes.now ≡ whole_parts populations.now (length due.old) }
    ensures { Ready populations.now (length due.old) due.new }
{
    for (i, &population) in populations.iter().enumerate() {
        mark(population, total, wholes[i], due);
    }
}
