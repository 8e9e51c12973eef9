// Whether a statement holds in every plan of a source, asked of any source by its contract alone.
#![tactic(auto)]

ghost use Rattle.std.specs.Prelude.{◌≡◌, length};
ghost use Rattle.source.specs.Plans.{Of};
ghost use Rattle.certain.specs.Certain.{Told, only_mark};

use source::bytes::{MARKED, UNMARKED};
use source::{Answer, Question, Refusal, Source};

// Makes the group that marks the statement and nothing else.
pub fn mark_only(group: &mut [u8], statement: usize)
    ensures { group.new ≡ only_mark (length group.old) statement }
{
    group.fill(UNMARKED);
    // Stays: written through get_mut, the group's bytes are unknown to the proof.
    if statement < group.len() {
        group[statement] = MARKED;
    }
}

// Whether every plan that agrees with the pins holds at the statement; one in which it does not hold is left in the
// place. The group is written over with the mark of the statement, whatever comes.
pub fn is_certain<S: Source>(
    source: &S,
    pins: &[u8],
    statement: usize,
    group: &mut [u8],
    place: &mut [u8],
) -> Result<bool, Refusal>
    ensures answer { Told (S.wide source.now) (Of (S.wide source.now) (S.plan source.now)) pins.now statement (only_mark (length group.old) statement) place.old result place.new }
    ensures group { group.new ≡ only_mark (length group.old) statement }
{
    mark_only(group, statement);
    // A plan that fails at the statement refutes it; where there is none it is certain.
    Ok(source.question(Question { pins, group }, place)? == Answer::Nothing)
}
