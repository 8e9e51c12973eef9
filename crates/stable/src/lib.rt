// The theorems on rulebooks, each in the contract of a function, and the worked cases.
#![tactic(auto)]

pub mod cases;

ghost use Rattle.stable.specs.Laws.{PlansAreKept, KeptArePlans, ClosureIsLeast, PlansAgree, ClashMeansNoPlan, WholeIsPlan, OutcomeIsClosure, BookLawful, TestsTell};

// A plan's decisions are kept by the five rules, and what they keep is a plan's.
pub fn plans_are_the_kept()
    ensures plans { PlansAreKept }
    ensures kept { KeptArePlans }
{}

// The closure is the least kept set, and every plan that agrees with the partial agrees with it.
pub fn closure_is_least()
    ensures least { ClosureIsLeast }
    ensures plans { PlansAgree }
{}

// What a clash and a whole closure mean.
pub fn outcome_is_right()
    ensures outcome { OutcomeIsClosure }
    ensures clash { ClashMeansNoPlan }
    ensures whole { WholeIsPlan }
{}

// A rulebook makes a base.
pub fn rulebook_makes_a_base()
    ensures { BookLawful }
{}

// The tests that compute say what the definitions say.
pub fn tests_tell()
    ensures { TestsTell }
{}
