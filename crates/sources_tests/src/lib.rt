// What sources answer on examples.
#![tactic(auto)]

#[cfg(test)]
mod certain_statements;
#[cfg(test)]
mod listed;
#[cfg(test)]
mod pair;
