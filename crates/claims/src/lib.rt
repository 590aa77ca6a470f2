// The theory layer: one account of claims that leximin and the five divisor methods share, and what growth without loss means. The crates
// that place and withdraw seats cite its theorems, which are about definitions alone: those of `apportionment` and its own. The code that
// they share stands here too: the leaves of a tournament, and what a move makes of a state's seats.
#![tactic(auto)]

pub mod moves;
pub mod tournament;
