// Sources of plans: plans that are listed, and two sources joined.
#![tactic(auto)]

pub mod listed;
pub mod pair;
pub mod refusal;

pub use listed::Listed;
pub use pair::Pair;
pub use refusal::ListingRefusal;
