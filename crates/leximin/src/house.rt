// What every step of leximin is told of a problem.

// A house to be filled: the populations of the states, what they add up to, and its seats.
#[derive(Clone, Copy)]
pub struct House<'a> {
    pub populations: &'a [u64],
    pub total: u64,
    pub house: u64,
}
