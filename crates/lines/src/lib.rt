// The lines of a register: the head, a state's line and the closing line, each with its checks in document 01's order. Each function
// works on what is left of the bytes from its line on.
#![tactic(auto)]

mod fingerprints;
pub mod head;
pub mod names;
pub mod pairs;

// Where a name stands among the bytes of a register: the places of its first byte and of what follows its last one.
#[derive(Clone, Copy)]
pub struct NamePlace {
    pub start: u32,
    pub end: u32,
}
