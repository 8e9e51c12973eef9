// What sheets answer on examples.
#![tactic(auto)]

#[cfg(test)]
mod day;
#[cfg(test)]
mod refusals;
#[cfg(test)]
mod widths;
