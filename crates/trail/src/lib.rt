// The theory of a walk's memory: an agenda of partials kept in three slices. No code, for any walk to cite.
#![tactic(auto)]
