// The words of a rule text, read without copying it.
#![tactic(auto)]

ghost use Rattle.std.specs.Prelude.{◌≡◌, ℕ, ◌+◌, ◌<◌, ◌≤◌, true, false, length, drop, MatchOption};
ghost use Rattle.std.specs.List.{prefix_len};
ghost use Rattle.words.specs.Words.{said, reading, is_blank, is_name_byte, is_letter, is_arrow, blanks, ends_line, name_token, name_at, next_word};

// A name may have this many bytes.
pub const NAME_MAX: usize = 32;

// What a word says. A name borrows its bytes from the text.
#[derive(Clone, Copy, Debug, PartialEq, Eq)]
pub enum Kind<'a> {
    Name(&'a [u8]),
    Not,
    Arrow,
    Comma,
    Point,
}

// A word with the place of its first byte.
#[derive(Clone, Copy, Debug, PartialEq, Eq)]
pub struct Word<'a> {
    pub kind: Kind<'a>,
    pub at: usize,
}

// Why bytes are no word.
#[derive(Clone, Copy, Debug, PartialEq, Eq)]
pub enum FaultKind {
    NoWord,
    LongName,
}

// Why the bytes at a place are no word.
#[derive(Clone, Copy, Debug, PartialEq, Eq)]
pub struct Fault {
    pub kind: FaultKind,
    pub at: usize,
}

// Goes over a lent text, word by word; `position` is where the reading goes on, or the place of a fault.
#[derive(Debug, Drop)]
pub struct Reader<'a> {
    text: &'a [u8],
    position: usize,
    ghost inside: { position ≤ length text.now },
}

// Whether the byte ends a line, and so a comment.
pub fn ends_line(b: u8) -> bool
    ensures { result ≡ ends_line b }
{
    b == b'\n'
}

fn is_blank(b: u8) -> bool
    ensures { result ≡ is_blank b }
{
    // Stays: with `matches!` the walk over blanks took half as long again.
    b == b' ' || b == b'\t' || b == b'\n' || b == b'\r'
}

fn is_letter(b: u8) -> bool
    ensures { result ≡ is_letter b }
{
    b.is_ascii_lowercase()
}

fn is_name_byte(b: u8) -> bool
    ensures { result ≡ is_name_byte b }
{
    is_letter(b) || b.is_ascii_digit() || b == b'_'
}

// How many bytes at the front of s part words: blanks, and comments.
fn blanks(s: &[u8]) -> usize
    ensures count { result ≡ blanks false s.now }
    ensures within { result ≤ length s.now }
{
    let mut in_comment = false;
    for (i, &b) in s.iter().enumerate() {
        if in_comment {
            in_comment = !ends_line(b);
        } else if b == b'%' {
            in_comment = true;
        } else if !is_blank(b) {
            return i;
        }
    }
    s.len()
}

// How many bytes of a name stand at the front of s.
fn name_length(s: &[u8]) -> usize
    ensures count { result ≡ prefix_len is_name_byte s.now }
    ensures within { result ≤ length s.now }
{
    s.iter().take_while(|&&b| is_name_byte(b)).count()
}

// What the bytes of a name say.
fn named<'a>(bytes: &'a [u8]) -> Kind<'a>
    ensures { said result ≡ name_token bytes.now }
{
    match bytes {
        b"not" => Kind::Not,
        _ => Kind::Name(bytes),
    }
}

impl<'a> Reader<'a> {
    // At the start of the text.
    pub fn new(text: &'a [u8]) -> Self
        ensures { (result.text.now ≡ text.now) × (result.position ≡ 0) }
    {
        Reader { text, position: 0 }
    }

    // The next word, or nothing at the end of the text. At a fault the position is its place.
    // Stays: no `Iterator`, since the same fault would then come for ever.
    pub fn next(&mut self) -> Result<Option<Word<'a>>, Fault>
        ensures reads { reading result self.new.position ≡ next_word self.old.text.now self.old.position }
        ensures same { self.new.text.now ≡ self.old.text.now }
    {
        let text = self.text;
        let at = self.position + blanks(&text[self.position..]);
        self.position = at;
        let rest = &text[at..];
        let (kind, size) = match rest {
            [] => return Ok(None),
            [b',', ..] => (Kind::Comma, 1),
            [b'.', ..] => (Kind::Point, 1),
            [b':', b'-', ..] => (Kind::Arrow, 2),
            [b, ..] if is_letter(*b) => match name_length(rest) {
                size @ 0..=NAME_MAX => (named(&rest[..size]), size),
                _ => return Err(Fault {
                    kind: FaultKind::LongName,
                    at,
                }),
            },
            _ => return Err(Fault {
                kind: FaultKind::NoWord,
                at,
            }),
        };
        self.position = at + size;
        Ok(Some(Word { kind, at }))
    }
}
