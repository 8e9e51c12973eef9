// The theory of the first plan below a partial, from the laws of a base alone: no code, for any walk to cite.
#![tactic(auto)]

ghost use Rattle.first.specs.Tree.{FirstStands};
ghost use Rattle.first.specs.Agenda.{TurnsStand};

use base::Base;

// The tree of extensions gives the first plan that agrees with a partial, and none exactly when none agrees.
pub fn first_stands<B: Base>(base: &B)
    ensures { FirstStands (B.wide base.now) (B.plan base.now) (B.outcome base.now) }
{}

// One extension keeps the answer and takes one off those left.
pub fn turns_stand<B: Base>(base: &B)
    ensures { TurnsStand (B.wide base.now) (B.outcome base.now) }
{}
