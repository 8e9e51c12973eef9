// A name that is read.
ghost use Rattle.std.specs.Prelude.{◌<◌, ◌≤◌, length};
ghost use Rattle.words.specs.declared.TheConstants.{NAME_MAX};
ghost use Rattle.text.specs.declared.texts.TheConstants.{TEXT_MAX};

// Its bytes, and the place of the first: both numbers fit a row.
#[derive(Clone, Copy, Debug, PartialEq, Eq)]
pub struct Name<'a> {
    pub bytes: &'a [u8],
    pub at: usize,
    ghost place: { at < TEXT_MAX },
    ghost size: { length bytes.now ≤ NAME_MAX },
}
