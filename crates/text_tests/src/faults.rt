// Faults by their numbers.
use std::test::*;
use text::{Cause, Fault, Owner};

#[test]
fn each_cause_has_its_number(rt: HostRuntime) -> Result<(), Fail> {
    let cases = [
        (Cause::LongText, 14),
        (Cause::ThirdText, 15),
        (Cause::ShortTable, 16),
        (Cause::NoWord, 20),
        (Cause::LongName, 21),
        (Cause::OutOfPlace, 22),
        (Cause::NoNameRow, 23),
        (Cause::NoEntryRow, 24),
        (Cause::NoRuleRow, 25),
    ];
    for (cause, number) in cases {
        assert_eq!(rt; cause.number(), number);
    }
    Ok(())
}

#[test]
fn each_text_has_its_number(rt: HostRuntime) -> Result<(), Fail> {
    assert_eq!(rt; Owner::Region.number(), 0);
    assert_eq!(rt; Owner::Harbour.number(), 1);
    assert_eq!(rt; Owner::try_from(0), Ok(Owner::Region));
    assert_eq!(rt; Owner::try_from(1), Ok(Owner::Harbour));
    assert!(rt; Owner::try_from(2).is_err());
    Ok(())
}

#[test]
fn a_fault_is_printed_by_its_numbers(rt: HostRuntime) -> Result<(), Fail> {
    let fault = Fault {
        cause: Cause::OutOfPlace,
        text: Owner::Harbour,
        byte: 71,
        line: 3,
    };
    let said = format!(in rt.alloc(); "{fault}")?;
    assert_eq!(rt; said.as_str(), "fault 22 text 1 byte 71 line 3");
    Ok(())
}
