// What the turns start from: each state's whole part, and when it will be able to have a seat more.
ghost use Rattle.std.specs.Prelude.{◌≡◌, ◌≤◌, length};
ghost use Rattle.apportionment.specs.Limits.{sum_limit};
ghost use Rattle.apportionment.specs.Lists.{list_of};
ghost use Rattle.apportionment.specs.inner.Problem.{Fillable};
ghost use Rattle.apportionment.specs.inner.WholeParts.{whole_parts};
ghost use Rattle.quota.specs.inner.Play.{EntryFits, outer_for, outer_of, first_key_for, first_key_of};

use keys::key_of;

// Gives each state the whole part of its share.
pub fn fill_wholes(populations: &[u64], total: u64, house: u64, seats: &mut [u64])
    requires { Fillable populations.now total house seats.old }
    ensures { seats.new ≡ whole_parts populations.now house }
{
    for (i, &population) in populations.iter().enumerate() {
        seats[i] = population * house / total;
    }
}

// The entry of a state outside: the numbers that are still to come once it is able to have a seat beyond its whole part. A state without a
// whole part is able from the first number on, and not outside; one whose share is a whole number is never able, and has 0 too.
fn outer_of(population: u64, total: u64, house: u64, whole: u64) -> u64
    requires { EntryFits population total house whole }
    ensures { result ≡ outer_for population total house whole }
{
    if whole == 0 {
        return 0;
    }
    house - whole * total / population
}

// The key of a state that is able from the first number on, and 0 for the others.
fn first_key(population: u64, whole: u64) -> u64
    requires { population ≤ sum_limit }
    ensures { result ≡ first_key_for population whole }
{
    if whole == 0 {
        return key_of(population, 0);
    }
    0
}

// Enters the states that are outside at first. It stands apart from `fill_keys`: one function with a closure for the entry would need
// clauses at the closures that are longer than the two loops.
pub fn fill_outers(populations: &[u64], total: u64, house: u64, wholes: &[u64], outers: &mut [u64])
    requires { Fillable populations.now total house outers.old × (wholes.now ≡ whole_parts populations.now house) }
    ensures { outers.new ≡ list_of (outer_of populations.now house) (length populations.now) }
{
    for (i, &population) in populations.iter().enumerate() {
        outers[i] = outer_of(population, total, house, wholes[i]);
    }
}

// Enters the states that wait at first.
pub fn fill_keys(populations: &[u64], total: u64, house: u64, wholes: &[u64], keys: &mut [u64])
    requires { Fillable populations.now total house keys.old × (wholes.now ≡ whole_parts populations.now house) }
    ensures { keys.new ≡ list_of (first_key_of populations.now house) (length populations.now) }
{
    for (i, &population) in populations.iter().enumerate() {
        keys[i] = first_key(population, wholes[i]);
    }
}
