// What the tests share: a draft with its tables, and checks of faults and of rows.
use std::alloc::{AllocError, Global};
use std::process::Abort;
use std::test::*;
use text::{Cause, Draft, Fault, NameRow, Owner, RuleRow, Tables};

// What the tables hold before anything is read: no row of a text looks like this.
const MARK: u16 = 60000;

const TEXT_MARK: u8 = 7;

const NAME_MARK: NameRow = NameRow {
    text: TEXT_MARK,
    first: MARK,
    size: MARK,
};

const RULE_MARK: RuleRow = RuleRow {
    head: MARK,
    first: MARK,
    count: MARK,
};

// How many texts were taken, and the counts of names, rules and entries.
pub type Counts = (u8, usize, usize, usize);

// A draft and tables for it, marked.
#[derive(Drop)]
pub struct Desk {
    pub draft: Draft,
    pub names: Vec<NameRow>,
    pub rules: Vec<RuleRow>,
    pub entries: Vec<u16>,
}

impl Desk {
    pub fn new(
        heap: Global,
        names: usize,
        rules: usize,
        entries: usize,
    ) -> Result<Desk, AllocError> {
        Ok(Desk {
            draft: Draft::new(),
            names: vec![in heap; NAME_MARK; names]?,
            rules: vec![in heap; RULE_MARK; rules]?,
            entries: vec![in heap; MARK; entries]?,
        })
    }

    // Tables a little longer than the limits.
    pub fn large(heap: Global) -> Result<Desk, AllocError> {
        Desk::new(heap, 520, 2060, 8200)
    }

    pub fn region(&mut self, text: &[u8]) -> Result<(), Fault> {
        self.harbour(text, text)
    }

    pub fn harbour(&mut self, text: &[u8], region: &[u8]) -> Result<(), Fault> {
        let mut tables = Tables {
            names: &mut self.names,
            rules: &mut self.rules,
            entries: &mut self.entries,
        };
        self.draft.read(text, region, &mut tables)
    }

    pub fn counts(&self) -> Counts {
        let draft = &self.draft;
        (draft.texts(), draft.names(), draft.rules(), draft.entries())
    }

    pub fn name(&self, statement: usize) -> Option<NameRow> {
        self.names.get(statement).copied()
    }

    pub fn rule(&self, number: usize) -> Option<RuleRow> {
        self.rules.get(number).copied()
    }

    // Every row from these on is this one.
    fn holds(&self, from: Counts, name: NameRow, rule: RuleRow, entry: u16) -> bool {
        let (_, names, rules, entries) = from;
        self.names.iter().skip(names).all(|row| *row == name)
            && self.rules.iter().skip(rules).all(|row| *row == rule)
            && self.entries.iter().skip(entries).all(|code| *code == entry)
    }

    // Every row past the counts is zero.
    pub fn is_blank(&self) -> bool {
        self.holds(self.counts(), NameRow::EMPTY, RuleRow::EMPTY, 0)
    }

    // Every row past the counts is as it was lent.
    pub fn is_untouched(&self) -> bool {
        self.holds(self.counts(), NAME_MARK, RULE_MARK, MARK)
    }

    // Every row at all is as it was lent.
    pub fn is_unwritten(&self) -> bool {
        self.holds((0, 0, 0, 0), NAME_MARK, RULE_MARK, MARK)
    }
}

pub fn name_row(text: Owner, first: u16, size: u16) -> NameRow {
    NameRow {
        text: text.number(),
        first,
        size,
    }
}

pub fn rule_row(head: u16, first: u16, count: u16) -> RuleRow {
    RuleRow { head, first, count }
}

// A fault of the region's text, and of the harbour's.
pub fn region_fault(cause: Cause, byte: usize, line: usize) -> Result<(), Fault> {
    Err(Fault {
        cause,
        text: Owner::Region,
        byte,
        line,
    })
}

pub fn harbour_fault(cause: Cause, byte: usize, line: usize) -> Result<(), Fault> {
    Err(Fault {
        cause,
        text: Owner::Harbour,
        byte,
        line,
    })
}

// A region's text is refused for this cause, at this place; the draft stays empty and every row becomes zero.
pub fn region_refused(
    rt: &impl Abort,
    heap: Global,
    text: &[u8],
    cause: Cause,
    byte: usize,
    line: usize,
) -> Result<(), Fail> {
    let mut desk = Desk::new(heap, 8, 8, 8)?;
    assert_eq!(rt; desk.region(text), region_fault(cause, byte, line));
    assert_eq!(rt; desk.counts(), (0, 0, 0, 0));
    assert!(rt; desk.is_blank());
    Ok(())
}

// A region's text is read whole, with these counts of names, rules and entries; the other rows stay as they are.
pub fn region_counts(
    rt: &impl Abort,
    heap: Global,
    text: &[u8],
    names: usize,
    rules: usize,
    entries: usize,
) -> Result<(), Fail> {
    let mut desk = Desk::new(heap, 8, 8, 8)?;
    assert_eq!(rt; desk.region(text), Ok(()));
    assert_eq!(rt; desk.counts(), (1, names, rules, entries));
    assert!(rt; desk.is_untouched());
    Ok(())
}

// A unit, so many times.
pub fn repeated(heap: Global, unit: &[u8], times: usize) -> Result<Vec<u8>, AllocError> {
    let mut text = Vec::new(heap);
    for _ in 0..times {
        text.extend_from_slice(unit)?;
    }
    Ok(text)
}

// A fact for each of the names n0, n1, .. from one number up to another.
pub fn facts(heap: Global, from: u16, to: u16) -> Result<Vec<u8>, AllocError> {
    let mut text = Vec::new(heap);
    for k in from..to {
        text.extend_from_slice(format!(in heap; "n{k}.")?.as_bytes())?;
    }
    Ok(text)
}
