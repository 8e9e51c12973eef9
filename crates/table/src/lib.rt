// The inner table of a sheet: lines with a candidate mark, a pin and a word, and what each call makes of them.
#![tactic(auto)]

pub mod groups;
pub mod line;
pub mod lines;
pub mod table;
