// The definitions of reading and writing records; the code is in crates of its own.
#![tactic(auto)]

// The bytes of the longest record that is permitted, and so written.
pub const PERMITTED: usize = 371;

// The most numbers that a permitted record has.
pub const NUMBERS: usize = 229;
