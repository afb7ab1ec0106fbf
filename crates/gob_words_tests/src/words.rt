//! The words of the command line.

use crate::lines::words_of;
use gob_words::{Order, OrderFault, order_of};
use std::alloc::{AllocError, Global};
use std::test::*;

// Words behind the program's name, and the order that they give, in lines one after the other: the command, the wanted
// file, the file that is read, and the limits.
const ORDERS: &str = r#"
show
Show None None 1000 67108864
check --depth 5 f
Check None Some("f") 5 67108864
check f --item=0 --depth=65536
Check None Some("f") 65536 0
rewrite f --item=0 --depth=65536
Rewrite None Some("f") 65536 0
take w --item 18446744073709551615 a
Take Some("w") Some("a") 1000 18446744073709551615
convert --depth 7 w
Convert Some("w") None 7 67108864
show --depth 007 -- --depth
Show None Some("--depth") 7 67108864
"#;

// What the order is, as the lines have it.
fn shown(alloc: Global, order: &Order<'_>) -> Result<String, AllocError> {
    let (command, wanted, input) = (order.command, order.wanted, order.input);
    let (depth, item) = (order.depth, order.item);
    format!(in alloc; "{command:?} {wanted:?} {input:?} {depth} {item}")
}

// Whether the words give this order.
fn gives(alloc: Global, words: &[&str], due: &str) -> bool {
    match order_of(alloc, words) {
        Ok(order) => match shown(alloc, &order) {
            Ok(text) => text.as_str() == due,
            Err(_) => false,
        },
        Err(_) => false,
    }
}

// Whether those of the line do.
fn line_gives(alloc: Global, line: &str, due: &str) -> bool {
    match words_of(alloc, line) {
        Ok(words) => gives(alloc, &words, due),
        Err(_) => false,
    }
}

// The words that give another order.
fn otherwise_given(alloc: Global) -> Option<&'static str> {
    let mut lines = ORDERS.trim().lines();
    while let Some(line) = lines.next() {
        if !line_gives(alloc, line, lines.next().unwrap_or("")) {
            return Some(line);
        }
    }
    None
}

#[test]
fn words_give_orders(rt: HostRuntime) {
    let otherwise = otherwise_given(rt.alloc());
    assert!(rt; otherwise.is_none(), "{otherwise:?}");
}

// Each line is the words of a command line behind the program's name.
const REFUSED: &str = "\

list
show a b
show --depth 0
show --depth 1001
show --depth 2000
take --depth 1001 w
check --depth 0
check --depth 65537
rewrite --depth 0
rewrite --depth 65537
show --item 18446744073709551616
show --item +5
show --item -5
show --item 5x
show --item 0x5
show --item=
show --depth +5
show --depth
show --depth 5 --depth 5
show --item 5 --item 6
show --deep 5
show -d 5
show --zeros
take --raw w
take --go w
take --all w
take --rename a=b w
take
take w a b
convert
convert w a b
convert --depth 1001 w
--depth 5 show
help list
--version
-V
check --help=yes";

// Words that are an order.
const ALLOWED: &str = "\
show a
show --depth 1 a
show --depth 1000 a
show --depth 0001000 a
take --depth 1000 w a
convert --depth 1000 w a
check --depth 1001 a
check --depth 65536 a
rewrite --depth 65536 a
show --item 0 a
show --item 18446744073709551615 a
show --depth 5 --item 6 a
show -- a";

const HELPS: &str = "\
help
-h
--help
help show
help check
help take
help convert
show --help
take -h
check f --help
help help";

#[derive(Clone, Copy, PartialEq, Eq)]
enum Ending {
    Order,
    Help,
    Refused,
    Memory,
}

fn end_of(alloc: Global, words: &[&str]) -> Ending {
    match order_of(alloc, words) {
        Ok(_) => Ending::Order,
        Err(OrderFault::Help(_)) => Ending::Help,
        Err(OrderFault::Memory) => Ending::Memory,
        Err(_) => Ending::Refused,
    }
}

// How those of the line end.
fn end_of_line(alloc: Global, line: &str) -> Ending {
    match words_of(alloc, line) {
        Ok(words) => end_of(alloc, &words),
        Err(_) => Ending::Memory,
    }
}

// The first of the lines that ends otherwise.
fn otherwise_ended(alloc: Global, lines: &'static str, end: Ending) -> Option<&'static str> {
    for line in lines.split('\n') {
        if end_of_line(alloc, line) != end {
            return Some(line);
        }
    }
    None
}

#[test]
fn some_words_are_refused(rt: HostRuntime) {
    let otherwise = otherwise_ended(rt.alloc(), REFUSED, Ending::Refused);
    assert!(rt; otherwise.is_none(), "{otherwise:?}");
}

// No word, no name of a program, and empty words and one with a space, which no line has.
const ODD: [&[&str]; 5] = [
    &[],
    &["show"],
    &["gob", ""],
    &["gob", "show", "--depth", ""],
    &["gob", "show", "--depth", "5 "],
];

#[test]
fn words_that_no_line_has_are_refused(rt: HostRuntime) {
    for words in &ODD {
        assert!(rt; end_of(rt.alloc(), words) == Ending::Refused, "{words:?}");
    }
}

#[test]
fn other_words_are_taken(rt: HostRuntime) {
    let otherwise = otherwise_ended(rt.alloc(), ALLOWED, Ending::Order);
    assert!(rt; otherwise.is_none(), "{otherwise:?}");
    let otherwise = otherwise_ended(rt.alloc(), HELPS, Ending::Help);
    assert!(rt; otherwise.is_none(), "{otherwise:?}");
}
