// Small clause lists, each settled whole: its plans, what is certain, and how partials extend.
#![tactic(auto, using(crate::proofs::Computed::no_plan), unfolding(closing::specs::Sets::byte_of))]

ghost use Rattle.std.specs.Prelude.{[], ◌∷◌};
ghost use Rattle.base.specs.Laws.{clash, fits};
ghost use Rattle.clauses.specs.Cases.{run, PlansAre, NoPlan, ExtendsTo};

// a or b: three plans, and nothing is certain.
pub fn an_either_has_three_plans()
    ensures { PlansAre 2 (run 0 2 ∷ []) (0 ∷ 2 ∷ []) ([]) ((2 ∷ 1 ∷ []) ∷ (1 ∷ 2 ∷ []) ∷ (1 ∷ 1 ∷ []) ∷ []) ([]) }
{}

// a; not a or b: one plan, and both are certain.
pub fn a_chain_is_certain()
    ensures { PlansAre 2 (run 0 1 ∷ run 1 2 ∷ []) (0 ∷ 1 ∷ 2 ∷ []) ([]) ((1 ∷ 1 ∷ []) ∷ []) (0 ∷ 1 ∷ []) }
{}

// An empty clause: no plan.
pub fn an_empty_clause_has_no_plan()
    ensures { NoPlan 1 (run 0 0 ∷ []) ([]) }
{}

// a or b forces nothing until one is decided.
pub fn an_either_forces_the_entry_left()
    ensures { (ExtendsTo 2 (run 0 2 ∷ []) (0 ∷ 2 ∷ []) (0 ∷ 0 ∷ []) (fits (0 ∷ 0 ∷ []))) × (ExtendsTo 2 (run 0 2 ∷ []) (0 ∷ 2 ∷ []) (2 ∷ 0 ∷ []) (fits (2 ∷ 1 ∷ []))) }
{}

// a; not a or b.
pub fn a_chain_forces_both()
    ensures { ExtendsTo 2 (run 0 1 ∷ run 1 2 ∷ []) (0 ∷ 1 ∷ 2 ∷ []) (0 ∷ 0 ∷ []) (fits (1 ∷ 1 ∷ [])) }
{}

// An empty clause clashes with every partial.
pub fn an_empty_clause_clashes()
    ensures { (ExtendsTo 1 (run 0 0 ∷ []) ([]) (0 ∷ []) clash) × (ExtendsTo 1 (run 0 0 ∷ []) ([]) (1 ∷ []) clash) }
{}

// a or a forces a, as a would.
pub fn a_clause_is_a_set()
    ensures { ExtendsTo 1 (run 0 2 ∷ []) (0 ∷ 0 ∷ []) (0 ∷ []) (fits (1 ∷ [])) }
{}

// a; not a.
pub fn contrary_clauses_clash()
    ensures { ExtendsTo 1 (run 0 1 ∷ run 1 1 ∷ []) (0 ∷ 1 ∷ []) (0 ∷ []) clash }
{}
