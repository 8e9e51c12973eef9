// A draft of a rulebook.
use crate::lent::Filled;
use tables::Owner;

mod read;
pub mod seal;

// What has been read: whose text comes next, if any does, and how many rows of the lent tables count.
#[derive(Debug, Drop)]
pub struct Draft {
    next: Option<Owner>,
    filled: Filled,
}
