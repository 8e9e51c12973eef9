// Tests of reading texts into drafts, of finding and of naming.
#![tactic(auto)]

#[cfg(test)]
mod desk;
#[cfg(test)]
mod faults;
#[cfg(test)]
mod grammar;
#[cfg(test)]
mod limits;
#[cfg(test)]
mod naming;
#[cfg(test)]
mod rows;
#[cfg(test)]
mod short;
#[cfg(test)]
mod spelling;
