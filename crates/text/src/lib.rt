// Drafts of rulebooks: rule texts are read into lent tables of names, rules and entries.
#![tactic(auto)]

mod draft;
mod front;
mod lent;
mod lines;
mod name;
mod names;
mod progress;
mod scan;
mod step;
mod texts;

pub use draft::Draft;
pub use draft::seal::Unsealed;
pub use lent::Tables;
pub use names::{find, name_of};
pub use tables::{Cause, Fault, NameRow, Owner, RuleRow};
pub use texts::{TEXT_MAX, Texts};
pub use words::{Kind, Reader, Word};
