// The layer of the divisor methods: rounded seats, moves of those that lack or are too many, and the allotment made of these.
// That it is the methods' allotment is the theory's (crate `claims`).
#![tactic(auto)]

pub mod fill;
pub mod moves;
pub mod rounding;
