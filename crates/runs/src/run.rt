// A call put to a sheet, and a list of calls run from the making on.
ghost use Rattle.std.specs.Prelude.{◌≡◌};
ghost use Rattle.source.specs.Plans.{Of};
ghost use Rattle.checks.specs.View.{view};
ghost use Rattle.sheet.specs.View.{Steps, LawContinues};
ghost use Rattle.runs.specs.Run.{call_of, reply_of, Ran};

use crate::call::{Call, Reply};
use sheet::{Sheet, SheetRefusal};
use source::Source;

// Makes the call and gives its answer.
pub fn put<S: Source>(sheet: &mut Sheet<S>, call: &Call<'_>) -> Result<Reply, SheetRefusal>
    ensures source { sheet.new.source ≡ sheet.old.source }
    ensures step { Steps (S.wide sheet.old.source) (S.plan sheet.old.source) sheet.old.table (call_of call.now) (reply_of result) sheet.new.table }
    ensures law { LawContinues (S.wide sheet.old.source) (S.plan sheet.old.source) sheet.old.table (call_of call.now) (reply_of result) sheet.new.table }
{
    match call {
        Call::Begin(candidates) => sheet.begin(candidates).map(|()| Reply::Done),
        Call::Settle(group) => sheet.settle(group).map(Reply::Settled),
        Call::SettleBy(technique, size) => sheet.settle_by(technique, *size).map(Reply::Settled),
        Call::Pin(statement, way) => sheet.pin(*statement, *way).map(|()| Reply::Done),
        Call::Tell(statement) => sheet.tell(*statement).map(Reply::Told),
        Call::Tally => sheet.tally().map(Reply::Tallied),
    }
}

// Makes a sheet over the source and puts the calls to it in their order, as many as have a place for the reply; the sheet, and how many.
pub fn run<S: Source>(
    source: S,
    calls: &[Call<'_>],
    replies: &mut [Result<Reply, SheetRefusal>],
) -> (Sheet<S>, usize)
    ensures source { result.0.source ≡ source }
    ensures ran { Ran (S.wide source) (Of (S.wide source) (S.plan source)) calls.now replies.old replies.new result.1 (view (S.wide source) result.0.table) }
{
    let mut sheet = Sheet::new(source);
    let made = calls.len().min(replies.len());
    // Stays: by index, since nothing is known of what is written through `iter_mut` under a `zip`.
    for (i, call) in calls[..made].iter().enumerate() {
        replies[i] = put(&mut sheet, call);
    }
    (sheet, made)
}
