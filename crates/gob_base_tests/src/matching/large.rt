//! Structs with many fields.
use super::rows::is_answered;
use std::alloc::{AllocError, Global};

// How many fields the structs have.
const FIELDS: u64 = 10000;

// Writes a struct of ints behind a row, as type 65. Its names are the numbers up to `FIELDS`, rising or falling.
fn add_struct(alloc: Global, row: &mut String, is_rising: bool) -> Result<(), AllocError> {
    row.push_str(" | 65 struct")?;
    for i in 0..FIELDS {
        let number = if is_rising { i } else { FIELDS - 1 - i };
        let field = format!(in alloc; " {number} 2")?;
        row.push_str(&field)?;
    }
    Ok(())
}

// A row of structs with rising and with falling names, which match.
fn row_of(alloc: Global) -> Result<String, AllocError> {
    let mut row = String::new(alloc);
    add_struct(alloc, &mut row, true)?;
    add_struct(alloc, &mut row, false)?;
    Ok(row)
}

// Whether they do.
fn is_matched(alloc: Global) -> bool {
    match row_of(alloc) {
        Ok(row) => is_answered(alloc, &row) == Ok(true),
        Err(_) => false,
    }
}

#[test]
fn many_fields_are_matched_by_name(rt: HostRuntime) {
    assert!(rt; is_matched(rt.alloc()), "{FIELDS} fields");
}
