//! Help, and the faults of words.

use crate::lines::words_of;
use gob_words::{OrderFault, order_of};
use std::alloc::Global;
use std::test::*;

// Whether the text has each of these, and ends without a line feed.
fn has_each(help: &str, texts: &str) -> bool {
    for text in texts.split('\n') {
        if !help.contains(text) {
            return false;
        }
    }
    !help.ends_with('\n')
}

// Whether the words are answered with a help that has each of these texts.
fn tells(alloc: Global, words: &[&str], texts: &str) -> bool {
    match order_of(alloc, words) {
        Err(OrderFault::Help(help)) => has_each(&help, texts),
        _ => false,
    }
}

// Whether those of the line are.
fn line_tells(alloc: Global, line: &str, texts: &str) -> bool {
    match words_of(alloc, line) {
        Ok(words) => tells(alloc, &words, texts),
        Err(_) => false,
    }
}

const PROGRAM: &str = "\
Shows, checks and rewrites streams
Usage: gob <COMMAND>
  values 
  types 
  why 
  explain 
  verify 
  salvage 
  split 
  join 
  show 
  check 
  rewrite 
  take 
  convert 
  version 
  help 
  -V, --version
gob values n.gob
Exit status:
Ended
InterfaceValue
Type gob show --go:
WrongId";

const CHECK: &str = "\
Usage: gob check [OPTIONS] [IN]
--depth <N>
--item <N>
--go 
--progress 
1 to 65536,
1000 with --go,";

const SHOW: &str = "\
Usage: gob show [OPTIONS] [IN]
--go 
--progress 
1 to 1000,";

const TAKE: &str = "\
Usage: gob take [OPTIONS] <WANTED> [IN]
--depth <N>
--item <N>
--go 
Go source
1 to 1000,";

const VALUES: &str = "\
Usage: gob values [OPTIONS] [IN]
where it is -,
--depth <N>
--item <N>
--zeros 
pandas
--typed 
--only <TYPE>
--each 
--as <ID=KIND>
time.Time, big.Int, big.Float, big.Rat, uuid, netip.Addr, text or base64
--progress 
--raw 
--tagged 
1 to 1000,";

const VERIFY: &str = "\
Usage: gob verify [OPTIONS] <FILE>...
--depth <N>
--item <N>
1 to 1000,";

const REWRITE: &str = "\
Usage: gob rewrite [OPTIONS] [IN]
--depth <N>
--item <N>
--go 
--hoist 
1 to 65536,
1000 with --go,";

const EXPLAIN: &str = "\
Usage: gob explain [OPTIONS] [IN]
where it is -,
--depth <N>
--item <N>
--fault 
--at <N>
1 to 1000,";

const WRITE: &str = "\
Usage: gob write [OPTIONS] [IN]
where it is -,
--go 
--line <N>
1 to 1000,";

// Words behind the program's name, and the texts of their help.
const HELPS: [(&str, &str); 15] = [
    ("help", PROGRAM),
    ("--help", PROGRAM),
    ("-h", PROGRAM),
    ("help take", TAKE),
    ("take --help", TAKE),
    ("check --help", CHECK),
    ("help show", SHOW),
    ("help values", VALUES),
    ("help verify", VERIFY),
    ("help rewrite", REWRITE),
    ("types --help", "--main \n--progress \n1 to 1000,"),
    ("why --help", "1 to 1000,"),
    ("help explain", EXPLAIN),
    ("help write", WRITE),
    (
        "help convert",
        "<WANTED> [IN]\na stream, or Go source\n--rename <OLD=NEW>\n--all",
    ),
];

// Whether the help has the one text, and the other behind it.
fn is_in_order(help: &str, first: &str, second: &str) -> bool {
    match help.split_once(first) {
        Some((_, rest)) => rest.contains(second),
        None => false,
    }
}

// Whether help has the commands for people before the exact ones.
fn has_people_first(alloc: Global) -> bool {
    match order_of(alloc, &["gob", "help"]) {
        Err(OrderFault::Help(help)) => {
            is_in_order(&help, "  values ", "  salvage ")
                && is_in_order(&help, "  salvage ", "  show ")
        }
        _ => false,
    }
}

#[test]
fn help_has_people_first(rt: HostRuntime) {
    assert!(rt; has_people_first(rt.alloc()), "help");
}

#[test]
fn help_has_its_texts(rt: HostRuntime) {
    for (line, texts) in &HELPS {
        assert!(rt; line_tells(rt.alloc(), line, texts), "{line}");
    }
}

// Whether the fault has this text and this status.
fn is_said(alloc: Global, fault: &OrderFault, text: &str, status: u8) -> bool {
    match fault.to_string(alloc) {
        Ok(said) => said.as_str() == text && fault.status() == status,
        Err(_) => false,
    }
}

fn is_help_said(alloc: Global) -> bool {
    match String::from_str(alloc, "a\nb") {
        Ok(help) => is_said(alloc, &OrderFault::Help(help), "a\nb", 0),
        Err(_) => false,
    }
}

#[test]
fn faults_of_words_have_lines_and_statuses(rt: HostRuntime) {
    let alloc = rt.alloc();
    let is_right = is_said(alloc, &OrderFault::Words, "gob: bad arguments", 2);
    assert!(rt; is_right, "bad words");
    let is_right = is_said(alloc, &OrderFault::Memory, "gob: out of memory", 2);
    assert!(rt; is_right, "want of memory");
    assert!(rt; is_help_said(alloc), "help");
}
