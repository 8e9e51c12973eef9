// Reads the rule texts of the folder it is run in, the region's and the harbour's, and prints what they say, or the fault.
#![tactic(auto)]

ghost use Rattle.std.specs.Prelude.{◌≡◌, ◌++◌, IfOk, OnOk};
ghost use Rattle.tables.specs.Draft.{Counts, Outcome};
ghost use Rattle.text.specs.Counted.{counts_of};
ghost use Rattle.text.specs.View.{rows_of, IsSameLoan};
ghost use Rattle.kubresa.specs.Both.{both_read};
ghost use Rattle.kubresa.specs.Output.{name_line, listed, printed};

use anyhow::anyhow;
use rulebook::{ENTRIES_MAX, NAMES_MAX, RULES_MAX};
use std::alloc::{AllocError, Global};
use std::fs::File;
use std::io;
use std::io::{ErrorKind, Read, Write};
use std::process::ExitCode;
use std::rt::Files;
use text::{Draft, Fault, NameRow, RuleRow, TEXT_MAX, Tables, Texts, name_of};

// One byte more than a text may have: enough to tell that it is too long.
const ENOUGH: u64 = TEXT_MAX as u64 + 1;

// The bytes of a file, as far as they count; none where there is no such file.
fn load(rt: &impl Files, heap: Global, path: &str) -> io::Result<Vec<u8>> {
    let mut bytes = Vec::new(heap);
    match File::open(rt, path) {
        Ok(file) => {
            file.take(ENOUGH).read_to_end(&mut bytes)?;
        }
        Err(e) if e.kind() == ErrorKind::NotFound => {}
        Err(e) => return Err(e),
    }
    Ok(bytes)
}

// The same; an error names the file.
// Stays: where no memory is left for the message, that is said in its place; `context` has its message without any.
fn load_named(rt: &impl Files, heap: Global, path: &str) -> anyhow::Result<Vec<u8>> {
    match load(rt, heap, path) {
        Ok(bytes) => Ok(bytes),
        Err(e) => Err(anyhow!(format!(in heap; "{path}: {e}")?)),
    }
}

// Reads the region's text and then the harbour's.
fn read_both(draft: &mut Draft, texts: Texts, tables: &mut Tables) -> Result<(), Fault>
    ensures is { (record { result = result; counts = counts_of draft.new; tables = rows_of tables.new }) ≡ both_read (counts_of draft.old) texts.entry.region.now texts.entry.harbour.now (rows_of tables.old) }
    ensures same { IsSameLoan tables.old tables.new }
{
    draft.read(texts.region, texts.region, tables)?;
    draft.read(texts.harbour, texts.region, tables)
}

// One line more: a statement's number and name.
fn push_line(
    heap: Global,
    out: &mut Vec<u8>,
    statement: usize,
    name: &[u8],
) -> Result<(), AllocError>
    ensures { OnOk result (out.new.items ≡ out.old.items ++ name_line statement name.now) }
{
    out.extend_from_slice(format!(in heap; "{statement} ")?.as_bytes())?;
    out.extend_from_slice(name)?;
    out.push(b'\n')?;
    Ok(())
}

// The counts, and a line for each statement that has a name.
fn listing(
    heap: Global,
    draft: &Draft,
    names: &[NameRow],
    texts: Texts,
) -> Result<Vec<u8>, AllocError>
    ensures { IfOk result (λ v. v.items ≡ listed (counts_of draft.now) texts.entry.region.now texts.entry.harbour.now names.now (counts_of draft.now).names) }
{
    let count = draft.names();
    let rules = draft.rules();
    let entries = draft.entries();
    let mut out = format!(in heap;
        "statements {count} rules {rules} entries {entries}\n"
    )?.into_bytes();
    // Stays: the statement's number is asked for and printed.
    for i in 0..count {
        if let Some(name) = name_of(i, count, names, texts) {
            push_line(heap, &mut out, i, name)?;
        }
    }
    Ok(out)
}

// What the program prints for the two texts.
fn output(heap: Global, texts: Texts, tables: &mut Tables) -> Result<Vec<u8>, AllocError>
    ensures { IfOk result (λ v. v.items ≡ printed texts.entry.region.now texts.entry.harbour.now (both_read (record { texts = 0; names = 0; rules = 0; entries = 0 }) texts.entry.region.now texts.entry.harbour.now (rows_of tables.old))) }
{
    let mut draft = Draft::new();
    match read_both(&mut draft, texts, tables) {
        Ok(()) => listing(heap, &draft, tables.names, texts),
        Err(fault) => Ok(format!(in heap; "{fault}\n")?.into_bytes()),
    }
}

fn run(rt: &(impl Files + Print), heap: Global) -> anyhow::Result<()> {
    let region = load_named(rt, heap, "region.txt")?;
    let harbour = load_named(rt, heap, "harbour.txt")?;
    let texts = Texts {
        region: region.as_slice(),
        harbour: harbour.as_slice(),
    };
    let mut names = vec![in heap; NameRow::EMPTY; NAMES_MAX]?;
    let mut rules = vec![in heap; RuleRow::EMPTY; RULES_MAX]?;
    let mut entries = vec![in heap; 0u16; ENTRIES_MAX]?;
    let mut tables = Tables {
        names: &mut names,
        rules: &mut rules,
        entries: &mut entries,
    };
    let out = output(heap, texts, &mut tables)?;
    io::writer(rt).write_all(out.as_slice())?;
    Ok(())
}

// An error is written under the name of the program, and the status is then 1.
fn main(rt: HostRuntime) -> anyhow::Result<ExitCode> {
    if let Err(e) = run(&rt, rt.alloc()) {
        eprintln!(rt; "kubresa: {e}")?;
        return Ok(ExitCode::FAILURE);
    }
    Ok(ExitCode::SUCCESS)
}
