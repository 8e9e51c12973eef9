// Whole uses of a sheet: calls as values, one put to a sheet, and a list of them run from the making on.
#![tactic(auto)]

mod call;
pub mod run;

pub use call::{Call, Reply};
pub use run::put;
