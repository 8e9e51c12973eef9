// The memory of a walk: what was decided when, and the choices that wait for "holds".
ghost use Rattle.std.specs.Prelude.{◌≡◌, ◌≤◌, length, replicate};
ghost use Rattle.trail.specs.Walks.{keep_b, keep_m, note_one, note_m};

use source::bytes::{FAILS, HOLDS, UNDECIDED};
use source::{Answer, WIDTH_MAX};
use std::ops::ControlFlow;

// What a walk keeps beside its partial.
#[derive(Drop)]
pub struct Trail {
    // for each statement how many choices waited when it was decided, or wait now if it is undecided
    pub marks: [u16; WIDTH_MAX],
    // the statements that were chosen to fail, the latest last
    // Stays: the library has no heap, so the stack is an array with its height beside it.
    pub choices: [u16; WIDTH_MAX],
    pub level: u16,
}

impl Trail {
    ghost use Rattle.walk.specs.Turning.{Lowest, Walks, Forks, Backs};

    // No choice waits.
    pub fn new() -> Trail
        ensures marks { result.marks ≡ replicate 512 0 }
        ensures level { result.level ≡ 0 }
    {
        Trail {
            marks: [0; WIDTH_MAX],
            choices: [0; WIDTH_MAX],
            level: 0,
        }
    }

    // Chooses "fails" at the lowest undecided statement, and lets "holds" wait.
    pub fn fork(&mut self, partial: &mut [u8], s: usize)
        requires walks { Walks (length partial.old) self.old partial.old }
        requires at { Lowest partial.old s }
        ensures { Forks self.old partial.old self.new partial.new }
    {
        self.choices[usize::from(self.level)] = s as u16;
        self.level += 1;
        note(partial, &mut self.marks, self.level);
        partial[s] = FAILS;
    }

    // Back to the latest choice that waits, which is now made for "holds"; with none left there is no plan.
    pub fn back(&mut self, partial: &mut [u8]) -> ControlFlow<Answer>
        requires { Walks (length partial.old) self.old partial.old }
        ensures { Backs self.old partial.old result self.new partial.new }
    {
        if self.level == 0 {
            return ControlFlow::Break(Answer::Nothing);
        }
        self.level -= 1;
        wipe(partial, &mut self.marks, self.level);
        let s = usize::from(self.choices[usize::from(self.level)]);
        partial[s] = HOLDS;
        ControlFlow::Continue(())
    }
}

// Takes back what was decided above the level.
// Stays: the marks are read by index, since of what a zip writes a proof knows nothing afterwards.
fn wipe(partial: &mut [u8], marks: &mut [u16], level: u16)
    requires { length partial.old ≤ length marks.old }
    ensures bytes { partial.new ≡ keep_b level marks.old partial.old }
    ensures marks { marks.new ≡ keep_m level partial.old marks.old }
{
    for (i, byte) in partial.iter_mut().enumerate() {
        *byte = if marks[i] > level { UNDECIDED } else { *byte };
        marks[i] = marks[i].min(level);
    }
}

// The mark of a statement with the byte, when the level is new; written without a branch, so the loop is fast.
fn noted(mark: u16, byte: u8, level: u16) -> u16
    ensures { result ≡ note_one level byte mark }
{
    if byte == UNDECIDED { level } else { mark }
}

// Marks what is undecided with the level.
// Stays: the marks are read by index, as in wipe.
fn note(partial: &[u8], marks: &mut [u16], level: u16)
    requires { length partial.now ≤ length marks.old }
    ensures { marks.new ≡ note_m level partial.now marks.old }
{
    for (i, &byte) in partial.iter().enumerate() {
        marks[i] = noted(marks[i], byte, level);
    }
}
