// What texts are written of chosen sheets.
use prefix::Prefix;
use sheet::{Form, Literal, Rule};
use sheet_writer::write_sheet;
use std::test::Fail;

#[test]
fn rules_have_rising_positions(rt: HostRuntime) -> Result<(), Fail> {
    let prefix = Prefix::new(4, 0b0101).ok_or("refused")?;
    let [a, b] = [Literal::on(2), Literal::on(3)];
    let [c, d] = [Literal::off(1), Literal::off(4)];
    let rules = [
        Rule::of(&[b, a]).ok_or("refused")?,
        Rule::of(&[d, b, c]).ok_or("refused")?,
    ];
    let text = write_sheet(rt.alloc(), Form::Cnf, prefix, &rules)?;
    let wanted = b"p cnf 4 2\na 1 0\ne 2 0\na 3 0\ne 4 0\n2 3 0\n-1 3 -4 0\n";
    assert_eq!(rt; text.as_slice(), wanted.as_slice());
    Ok(())
}

// Three reports, then two replies; an empty rule, and a literal past the prefix.
#[test]
fn kinds_are_written_in_runs(rt: HostRuntime) -> Result<(), Fail> {
    let prefix = Prefix::new(5, 0b00111).ok_or("refused")?;
    let past = Rule::of(&[Literal::on(5), Literal::off(24)]).ok_or("refused")?;
    let text = write_sheet(rt.alloc(), Form::Dnf, prefix, &[Rule::empty(), past])?;
    let wanted = b"p dnf 5 2\na 1 2 3 0\ne 4 5 0\n0\n5 0\n";
    assert_eq!(rt; text.as_slice(), wanted.as_slice());
    Ok(())
}
