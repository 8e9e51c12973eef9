// The closure of rules that force decisions, and the base that it makes.
#![tactic(auto)]

ghost use Rattle.std.specs.Prelude.{◌≡◌, ℕ, Bool, ◌*◌, ◌<◌, ◌≤◌, List, length, slice_index};
ghost use Rattle.source.specs.Plans.{Partial, UpTo};
ghost use Rattle.closing.specs.Sets.{contrary, holds};
ghost use Rattle.closing.specs.Forces.{Forces, Sound, Based, Least, closure, outcome};
ghost use Rattle.closing.specs.Closures.{closing_lawful};
ghost use Rattle.closing.specs.Fews.{Answers, Lacks};
ghost use Rattle.base.specs.Extending.{Extends};
ghost use Rattle.closing.specs.Turns.{Turn, Pass, Closes, Made, Extended, ByClosure};

use base::{Base, Outcome, check};
use source::bytes::{UNDECIDED, byte_at};
use source::{Refusal, WIDTH_MAX};

// No plan agrees with what is decided.
#[derive(Clone, Copy, Debug, PartialEq, Eq)]
pub struct Clash;

// What a turn did: it decided something or found nothing to do, or no plan is left.
pub type Turned = Result<bool, Clash>;

// None, only one, or several.
#[derive(Clone, Copy, Debug, PartialEq, Eq)]
pub enum Few<T> {
    Nothing,
    Only(T),
    Several,
}

// Rules that force decisions, one turn at a time.
pub trait Rules {
    ghost forces: { Self → Forces };

    ghost plan: { Self → List ℕ → Type 0 };

    ghost sound: { (s : Self) → Sound (forces s) };

    ghost based: { (s : Self) → Based (forces s) (plan s) };

    fn width(&self) -> usize
        ensures { result ≡ (forces self.now).width };

    fn count(&self) -> usize
        ensures { result ≡ (forces self.now).many };

    // How many rules come first: the dearer ones after them get a turn only where those have nothing to do.
    fn swift(&self) -> usize;

    fn turn(&self, p: &mut [u8], k: usize) -> Turned
        requires partial { Partial (forces self.now).width p.old }
        requires at { k < (forces self.now).many }
        ensures { Turn (forces self.now) k p.old p.new result };
}

// The entry that says the contrary, for turns.
// Stays: entries stand as codes in lent tables, so a type around each would be put on and taken off at every call.
pub fn contrary_of(e: u16) -> u16
    ensures { result ≡ contrary e }
{
    e ^ 1
}

// Whether an entry holds in a partial, for turns.
pub fn entry_holds(p: &[u8], e: u16) -> bool
    ensures { result ≡ holds p.now e }
{
    byte_at(p, (e / 2) as usize) == (1 + e % 2) as u8
}

// The entries of a list, read as a set, that fail a test.
pub fn exceptions<F: Fn(u16) -> bool>(entries: &[u16], passes: F) -> Few<u16>
    requires { (k : ℕ) → k < length entries.now → F.pre passes (slice_index entries.now k) }
    ensures { (t : ℕ → Bool) → Answers (F.post passes) t entries.now → Lacks t entries.now result }
{
    let mut found = Few::Nothing;
    for &e in entries {
        if !passes(e) {
            match found {
                Few::Nothing => found = Few::Only(e),
                Few::Only(first) if first == e => {}
                _ => return Few::Several,
            }
        }
    }
    found
}

// Makes an entry hold, where the partial does not contradict it.
pub fn decide(p: &mut [u8], e: u16) -> Turned
    requires entry { e < 2 * length p.old }
    requires bytes { UpTo 2 p.old }
    ensures { Made p.old e p.new result }
{
    let s = (e / 2) as usize;
    let v = (1 + e % 2) as u8;
    if p[s] == v {
        Ok(false)
    } else if p[s] == UNDECIDED {
        p[s] = v;
        Ok(true)
    } else {
        Err(Clash)
    }
}

// Every rule once, but no dear one after a change.
// Not inlined into `close`: as one loop the two take a third more time.
#[inline(never)]
fn pass<R: Rules>(rules: &R, p: &mut [u8]) -> Turned
    requires { Partial (R.forces rules.now).width p.old }
    ensures { Pass (R.forces rules.now) p.old p.new result }
{
    let swift = rules.swift();
    let mut changed = false;
    for k in 0..rules.count() {
        if changed && k >= swift {
            return Ok(true);
        }
        changed |= rules.turn(p, k)?;
    }
    Ok(changed)
}

// Passes until nothing changes.
fn close<R: Rules>(rules: &R, p: &mut [u8]) -> Result<(), Clash>
    requires { Partial (R.forces rules.now).width p.old }
    ensures { Closes (R.forces rules.now) p.old p.new result }
{
    'passes: while pass(rules, p)? {}
    Ok(())
}

// Extends by way of lent memory of the same length; a clash leaves the partial.
fn extend_with<R: Rules>(rules: &R, p: &mut [u8], work: &mut [u8]) -> Outcome
    requires partial { Partial (R.forces rules.now).width p.old }
    requires work { length work.old ≡ length p.old }
    ensures { Extended (R.forces rules.now) p.old p.new result }
{
    work.copy_from_slice(p);
    match close(rules, work) {
        Ok(()) => {
            p.copy_from_slice(work);
            Outcome::Fits
        }
        Err(Clash) => Outcome::Clash,
    }
}

// The base of any rules.
#[derive(Drop)]
pub struct Closing<R> {
    pub rules: R,
}

impl<R: Rules> Base for Closing<R> {
    ghost wide = { λ s. (R.Rules.forces s.rules).width };

    ghost plan = { λ s. R.Rules.plan s.rules };

    ghost outcome = { λ s. outcome (R.Rules.forces s.rules) };

    ghost lawful = { λ s. closing_lawful (R.Rules.forces s.rules) (R.Rules.sound s.rules) (R.Rules.plan s.rules) (R.Rules.based s.rules) };

    fn width(&self) -> usize {
        self.rules.width()
    }

    fn extend(&self, partial: &mut [u8]) -> Result<Outcome, Refusal>
        ensures extends { Extends (R.Rules.forces self.now.rules).width (outcome (R.Rules.forces self.now.rules)) partial.old result partial.new }
        ensures closure { ByClosure (R.Rules.forces self.now.rules) partial.old result partial.new }
    {
        let w = self.rules.width();
        check(w, partial)?;
        let mut work = [UNDECIDED; WIDTH_MAX];
        Ok(extend_with(&self.rules, partial, &mut work[0..w]))
    }
}

// The closure is the least set of decisions that contains the partial and has all that the rules force.
pub fn closure_stands<R: Rules>(rules: &R)
    ensures { (p : List ℕ) → Least (R.forces rules.now) p (closure (R.forces rules.now) p) }
{}
