// What the search answers, against an enumerator written apart from it.
#![tactic(auto)]

#[cfg(test)]
mod clause_tests;
#[cfg(test)]
mod comparing;
#[cfg(test)]
mod enumerator;
pub mod some_holds;
#[cfg(test)]
mod some_holds_tests;
