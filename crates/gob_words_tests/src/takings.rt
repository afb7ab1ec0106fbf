//! What words ask of `take --go`.

use crate::lines::words_of;
use gob_words::{Order, ViewFault, go_taking_of};
use std::alloc::{AllocError, Global};
use std::test::*;

// Words behind the program's name, and the order that they give or the line that says what is wrong with them, in lines
// one after the other.
const TAKINGS: &str = r#"
take --go w
Take Some("w") None 1000 67108864
take w --go f
Take Some("w") Some("f") 1000 67108864
take --item 0 --depth 0001000 w - --go
Take Some("w") Some("-") 1000 0
take --go -- --go --depth
Take Some("--go") Some("--depth") 1000 67108864
take w f
gob: bad arguments
take w -- --go
gob: bad arguments
show --go f
gob: bad arguments
convert w f
gob: bad arguments

gob: bad arguments
list --go
gob: bad arguments
take --go --depth 0 w
gob: invalid value '0' for '--depth <N>': no number from 1 to 1000
take --go --depth 1001 w
gob: invalid value '1001' for '--depth <N>': no number from 1 to 1000
take --go --item -5 w
gob: unexpected argument '-5' found
take --go --item x w
gob: invalid value 'x' for '--item <N>': no number from 0 to 18446744073709551615
take --go w a b
gob: unexpected argument 'b' found
take --go
gob: the following required arguments were not provided: <WANTED>
take --go --all w
gob: unexpected argument '--all' found
"#;

// What the order is, as the lines have it.
fn shown(alloc: Global, order: &Order<'_>) -> Result<String, AllocError> {
    let (command, wanted, input) = (order.command, order.wanted, order.input);
    let (depth, item) = (order.depth, order.item);
    format!(in alloc; "{command:?} {wanted:?} {input:?} {depth} {item}")
}

fn fault_shown(alloc: Global, fault: &ViewFault) -> Result<String, AllocError> {
    format!(in alloc; "{fault}")
}

// What comes of the words of a line, as the lines have it.
fn told(alloc: Global, line: &str) -> Result<String, AllocError> {
    let words = words_of(alloc, line)?;
    match go_taking_of(alloc, &words) {
        Ok(order) => shown(alloc, &order),
        Err(fault) => fault_shown(alloc, &fault),
    }
}

// The words of which something else comes.
fn otherwise_told(alloc: Global) -> Option<&'static str> {
    let mut lines = TAKINGS.strip_prefix("\n").unwrap_or("").lines();
    while let Some(line) = lines.next() {
        let due = lines.next().unwrap_or("");
        match told(alloc, line) {
            Ok(text) if text.as_str() == due => {}
            _ => return Some(line),
        }
    }
    None
}

#[test]
fn words_ask_of_takings(rt: HostRuntime) {
    let otherwise = otherwise_told(rt.alloc());
    assert!(rt; otherwise.is_none(), "{otherwise:?}");
}
