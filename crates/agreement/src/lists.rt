// Walks over the lists that a placing holds.
ghost use Rattle.std.specs.Prelude.{◌≡◌, drop};
ghost use Rattle.agreement.specs.inner.Lists.{all_zero, each_within};

use apportionment::within;

// Every number from place n on is 0. It joins the bits of all of them before it looks, so that the compiler can take several at a time.
pub fn zeros_from(list: &[u64], n: usize) -> bool
    ensures { result ≡ all_zero (drop n list.now) }
{
    let rest = &list[n.min(list.len())..];
    rest.iter().fold(0, |joined, number| joined | *number) == 0
}

// Every number is at least 1 and at most the house.
pub fn each_within(seats: &[u64], house: u64) -> bool
    ensures { result ≡ each_within house seats.now }
{
    seats.iter().all(|own| within(house, *own))
}
