// The leximin layer: a state's nearest seats, the order of claims by sizes, and the moves that place or withdraw seats, one by a
// scan and several by a tournament.
// Allotting and the placing are built of these; what they say of leximin itself is the theory's (crate `claims`).
#![tactic(auto)]

pub mod house;
pub mod moves;
pub mod scan;
pub mod settle;
pub mod start;
pub mod tournament;
