// Numbers that come to a window, with the number 0, which no message has.
use sp_dedup::Window;
use std::process::Abort;
use std::test::Fail;

/// What new windows say by docs/RULES.md, under "Duplicate windows".
const ROWS: &str = "\
0 yes, 0 no, 1023 yes, 0 no, 1024 yes, 1 yes, 0 no";

/// Each number of a row comes to one new window.
fn runs(rt: &impl Abort, row: &str) -> Result<(), Fail> {
    let mut window = Window::new();
    for pair in row.split(", ") {
        let (number, word) = pair.split_once(' ').ok_or("no answer")?;
        let number: u64 = number.parse()?;
        let is_new = word == "yes";
        let found = (
            window.seen(number),
            window.first(number),
            window.seen(number),
        );
        assert!(rt; found == (!is_new, is_new, true), "{number}");
    }
    Ok(())
}

#[test]
fn zero_is_a_number_as_any_other(rt: HostRuntime) -> Result<(), Fail> {
    for row in ROWS.lines() {
        runs(&rt, row)?;
    }
    Ok(())
}
