// The pieces of the register's grammar: lines, fields, numbers, names and the words of the methods. Each function works on what is
// left of the bytes, lent, and answers what its definition in specs/ says.
#![tactic(auto)]

pub mod cut;
pub mod numbers;
pub mod parts;
pub mod words;
