// Small rulebooks, each settled whole: its plans, what is certain, and how partials extend.
#![tactic(auto, unfolding(closing::specs::Sets::byte_of))]

ghost use Rattle.std.specs.Prelude.{[], ◌∷◌};
ghost use Rattle.base.specs.Laws.{clash, fits};
ghost use Rattle.stable.specs.Cases.{PlansAre, NoPlan, ExtendsTo, nothing_said, stands_on_itself, denies_itself, one_or_other, either_way, one_forbidden, by_default, stand_on_each_other, body_twice, one_row, equal_rows, holds_and_forbidden, forbids_all};

// No rules and no statements: one plan, the empty one.
pub fn nothing_said_has_one_plan()
    ensures { PlansAre nothing_said ([]) (([]) ∷ []) ([]) }
{}

// a :- a. The rule founds nothing: a fails in the one plan.
pub fn what_stands_on_itself_fails()
    ensures { PlansAre stands_on_itself ([]) ((2 ∷ []) ∷ []) ([]) }
{}

// a :- not a. No plan.
pub fn what_denies_itself_has_no_plan()
    ensures { NoPlan denies_itself }
{}

// a :- not b. b :- not a. Two plans, and nothing is certain.
pub fn one_or_other_has_two_plans()
    ensures { PlansAre one_or_other ([]) ((2 ∷ 1 ∷ []) ∷ (1 ∷ 2 ∷ []) ∷ []) ([]) }
{}

// The same with c :- a. c :- b. Only c is certain.
pub fn either_way_is_certain()
    ensures { PlansAre either_way ([]) ((2 ∷ 1 ∷ 1 ∷ []) ∷ (1 ∷ 2 ∷ 1 ∷ []) ∷ []) (2 ∷ []) }
{}

// The same with :- b. One plan is left, and a and c are certain.
pub fn one_forbidden_leaves_the_other()
    ensures { PlansAre one_forbidden ([]) ((1 ∷ 2 ∷ 1 ∷ []) ∷ []) (0 ∷ 2 ∷ []) }
{}

// a :- not b. Nothing founds b, so a is certain.
pub fn by_default_is_certain()
    ensures { PlansAre by_default ([]) ((1 ∷ 2 ∷ []) ∷ []) (0 ∷ []) }
{}

// a :- b. b :- a. :- not a. No plan.
pub fn what_stand_on_each_other_have_no_plan()
    ensures { NoPlan stand_on_each_other }
{}

// a :- not b. b :- not a. with a pinned to fail: b is certain.
pub fn a_pin_settles_one_or_other()
    ensures { PlansAre one_or_other (2 ∷ 0 ∷ []) ((2 ∷ 1 ∷ []) ∷ []) (1 ∷ []) }
{}

// a :- a. extends to a failing.
pub fn unfounded_statements_fail()
    ensures { ExtendsTo stands_on_itself (0 ∷ []) (fits (2 ∷ [])) }
{}

// a :- not a. forces nothing by itself; either value of a clashes.
pub fn a_partial_may_fit_without_a_plan()
    ensures { (ExtendsTo denies_itself (0 ∷ []) (fits (0 ∷ []))) × ((ExtendsTo denies_itself (1 ∷ []) clash) × (ExtendsTo denies_itself (2 ∷ []) clash)) }
{}

// a :- not b. b :- not a. forces nothing until one is decided.
pub fn one_decision_forces_the_other()
    ensures { (ExtendsTo one_or_other (0 ∷ 0 ∷ []) (fits (0 ∷ 0 ∷ []))) × ((ExtendsTo one_or_other (2 ∷ 0 ∷ []) (fits (2 ∷ 1 ∷ []))) × (ExtendsTo one_or_other (1 ∷ 0 ∷ []) (fits (1 ∷ 2 ∷ [])))) }
{}

// In the case in which c is certain the closure leaves it open, and clashes with c failing.
pub fn what_a_closure_does_not_decide()
    ensures { (ExtendsTo either_way (0 ∷ 0 ∷ 0 ∷ []) (fits (0 ∷ 0 ∷ 0 ∷ []))) × (ExtendsTo either_way (0 ∷ 0 ∷ 2 ∷ []) clash) }
{}

// With :- b. everything is forced.
pub fn contraposition_reaches_through()
    ensures { ExtendsTo one_forbidden (0 ∷ 0 ∷ 0 ∷ []) (fits (1 ∷ 2 ∷ 1 ∷ [])) }
{}

// a :- not b. b :- not a. :- a, a. forbids a, as :- a. would.
pub fn a_body_is_a_set()
    ensures { ExtendsTo body_twice (0 ∷ 0 ∷ []) (fits (2 ∷ 1 ∷ [])) }
{}

// a :- b. b :- not c. c :- not b. with a holding: backchain forces b through the one rule; where that rule stands in two rows, it forces nothing.
pub fn equal_rows_are_two_rules()
    ensures { (ExtendsTo one_row (1 ∷ 0 ∷ 0 ∷ []) (fits (1 ∷ 1 ∷ 2 ∷ []))) × (ExtendsTo equal_rows (1 ∷ 0 ∷ 0 ∷ []) (fits (1 ∷ 0 ∷ 0 ∷ []))) }
{}

// a. :- a. The closure has both values of a.
pub fn a_forced_contrary_clashes()
    ensures { ExtendsTo holds_and_forbidden (0 ∷ []) clash }
{}

// A headless rule with an empty body clashes with every partial.
pub fn a_bodiless_headless_rule_clashes()
    ensures { (ExtendsTo forbids_all (0 ∷ []) clash) × ((ExtendsTo forbids_all (1 ∷ []) clash) × (ExtendsTo forbids_all (2 ∷ []) clash)) }
{}
