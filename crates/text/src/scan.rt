// Goes over the words of a text.
ghost use Rattle.std.specs.Prelude.{◌≡◌, ℕ, ◌≤◌, length};
ghost use Rattle.words.specs.Running.{running};
ghost use Rattle.tables.specs.Reading.{run};
ghost use Rattle.text.specs.View.{texts_of, rows_of, IsSameLoan};
ghost use Rattle.text.specs.Stages.{fed, stage_of};

use crate::lent::Tables;
use crate::progress::Progress;
use crate::texts::{Reading, TEXT_MAX};
use tables::Stop;
use words::Reader;

// Reads word by word up to the end or the first fault.
pub(crate) fn scan(
    text: &[u8],
    reading: Reading,
    progress: &mut Progress,
    tables: &mut Tables,
) -> Result<(), Stop>
    requires { length text.now ≤ TEXT_MAX }
    ensures says { fed result (stage_of progress.new) (rows_of tables.new) ≡ run (texts_of reading.entry) (length text.now) (stage_of progress.old) (rows_of tables.old) (running text.now 0) }
    ensures same { IsSameLoan tables.old tables.new }
{
    let mut reader = Reader::new(text);
    while let Some(word) = reader.next()? {
        progress.step(word, reading, tables)?;
    }
    progress.finish(text.len())
}
