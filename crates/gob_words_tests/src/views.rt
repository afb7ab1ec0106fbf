//! The words that ask for a stream to be shown.

use crate::lines::words_of;
use gob_words::{OrderFault, TypeKind, VERSION, View, ViewFault, escaped, order_of, view_of};
use std::alloc::{AllocError, Global};
use std::test::*;

// Words behind the program's name, and the view that they ask for, in lines one after the other: the command, the file,
// the limits, the byte of the item that is shown alone, and the flags.
const VIEWS: &str = r#"
explain
Explain None 1000 67108864 None
explain --fault
Explain None 1000 67108864 None fault
explain --at 37 -
Explain None 1000 67108864 Some(37)
values
Values None 1000 67108864 None
values -
Values None 1000 67108864 None
values --depth 5 f --item=0
Values Some("f") 5 0 None
types f --depth=999
Types Some("f") 999 67108864 None
why f --depth=1 --item 7
Why Some("f") 1 7 None
salvage
Salvage None 1000 67108864 None
salvage - --item 7 --depth 9
Salvage None 9 7 None
version
Version None 1000 67108864 None
--version
Version None 1000 67108864 None
-V
Version None 1000 67108864 None
show --go
ShowGo None 1000 67108864 None
show --depth 1000 f --go
ShowGo Some("f") 1000 67108864 None
check --go
CheckGo None 1000 67108864 None
check --depth 1000 f --go
CheckGo Some("f") 1000 67108864 None
rewrite --go
RewriteGo None 1000 67108864 None
rewrite --depth 1000 f --go
RewriteGo Some("f") 1000 67108864 None
rewrite --hoist f
RewriteGo Some("f") 1000 67108864 None hoist
rewrite f --go --hoist
RewriteGo Some("f") 1000 67108864 None hoist
values --tagged --zeros f
Values Some("f") 1000 67108864 None zeros tagged
values --typed f
Values Some("f") 1000 67108864 None typed
values --only Login --typed --tagged f
Values Some("f") 1000 67108864 None tagged typed only Login
values --only=65
Values None 1000 67108864 None only 65
verify a.gob b.gob
Verify None 1000 67108864 None
verify --depth 5 --item 0 -- --go
Verify None 5 0 None
values --each --progress f
Values Some("f") 1000 67108864 None each progress
values --as 66=big.Int f
Values Some("f") 1000 67108864 None as 66=BigInt
values --as=66=text --as 0067=netip.Addr --each --as 66=base64 -
Values None 1000 67108864 None each as 66=Text 67=NetipAddr 66=Base64
values --as 1=time.Time --as 2=big.Float --as 3=big.Rat --as 18446744073709551615=uuid
Values None 1000 67108864 None as 1=Time 2=BigFloat 3=BigRat 18446744073709551615=Uuid
types --main f
Types Some("f") 1000 67108864 None main
types --progress --main
Types None 1000 67108864 None main progress
split a b
Split Some("a") 1000 67108864 None
split --depth 9 - d --size 3M
Split None 9 67108864 None
join --item 7 a b
Join None 1000 7 None
write f
Write Some("f") 1000 67108864 None
write --line 7
Write None 1000 67108864 None line 7
write --go f
Write Some("f") 1000 67108864 None go
verify --progress a.gob
Verify None 1000 67108864 None progress
values --salvage f
Values Some("f") 1000 67108864 None salvage
types --main --salvage
Types None 1000 67108864 None main salvage
show --salvage f
ShowGo Some("f") 1000 67108864 None salvage
show --go --salvage --progress -
ShowGo None 1000 67108864 None progress salvage
show --progress --go f
ShowGo Some("f") 1000 67108864 None progress
check --go --progress
CheckGo None 1000 67108864 None progress
values --zeros
Values None 1000 67108864 None zeros
values --raw
Values None 1000 67108864 None raw
values --raw --zeros
Values None 1000 67108864 None zeros raw
values --zeros - --raw
Values None 1000 67108864 None zeros raw
values --zeros -- --raw
Values Some("--raw") 1000 67108864 None zeros
"#;

// Appends what is said of types, as the lines have it.
fn push_kinds(kinds: &[TypeKind], text: &mut String) -> Result<(), AllocError> {
    if !kinds.is_empty() {
        text.push_str(" as")?;
    }
    for said in kinds {
        let (id, kind) = (said.id, said.kind);
        write!(text, " {id}={kind:?}")?;
    }
    Ok(())
}

// What the view is, as the lines have it.
fn shown(alloc: Global, view: &View<'_>) -> Result<String, AllocError> {
    let (command, input, at) = (view.command, view.input, view.at);
    let (depth, item) = (view.depth, view.item);
    let mut text = format!(in alloc; "{command:?} {input:?} {depth} {item} {at:?}")?;
    for (is_set, flag) in [
        (view.zeros, " zeros"),
        (view.raw, " raw"),
        (view.tagged, " tagged"),
        (view.typed, " typed"),
        (view.each, " each"),
        (view.main, " main"),
        (view.progress, " progress"),
        (view.salvage, " salvage"),
        (view.hoist, " hoist"),
        (view.fault, " fault"),
        (view.go, " go"),
    ] {
        if is_set {
            text.push_str(flag)?;
        }
    }
    if let Some(only) = view.only {
        text.push_str(" only ")?;
        text.push_str(only)?;
    }
    let line = view.line;
    if line != 268435456 {
        write!(text, " line {line}")?;
    }
    push_kinds(&view.kinds, &mut text)?;
    Ok(text)
}

// Whether the words ask for this view.
fn gives(alloc: Global, words: &[&str], due: &str) -> bool {
    match view_of(alloc, words) {
        Ok(view) => match shown(alloc, &view) {
            Ok(text) => text.as_str() == due,
            Err(_) => false,
        },
        Err(_) => false,
    }
}

// Whether those of the line do.
fn line_gives(alloc: Global, line: &str, due: &str) -> bool {
    match words_of(alloc, line) {
        Ok(words) => gives(alloc, &words, due),
        Err(_) => false,
    }
}

// The words that ask for another view.
fn otherwise_given(alloc: Global) -> Option<&'static str> {
    let mut lines = VIEWS.trim().lines();
    while let Some(line) = lines.next() {
        if !line_gives(alloc, line, lines.next().unwrap_or("")) {
            return Some(line);
        }
    }
    None
}

#[test]
fn words_give_views(rt: HostRuntime) {
    let otherwise = otherwise_given(rt.alloc());
    assert!(rt; otherwise.is_none(), "{otherwise:?}");
    assert!(rt; VERSION == "gob 0.1.0", "the version");
}

// Words that are views by their flags alone, and so no orders.
const NO_ORDERS: &str = "\
show --go
show --depth 1000 f --go
show --salvage
check --go
check --depth 1000 f --go
rewrite --go
rewrite --depth 1000 f --go
rewrite --hoist f";

// Words that are orders, since a file is named as the flag.
const FILES: &str = "\
show -- --go
show -- --salvage
check -- --go
rewrite -- --go
rewrite -- --hoist";

// Whether the words give no order.
fn gives_no_order(alloc: Global, words: &[&str]) -> bool {
    match order_of(alloc, words) {
        Err(OrderFault::Words) => true,
        _ => false,
    }
}

// Whether those of the line give an order, or none, as is due.
fn is_order(alloc: Global, line: &str, due: bool) -> bool {
    match words_of(alloc, line) {
        Ok(words) => gives_no_order(alloc, &words) != due,
        Err(_) => false,
    }
}

// The first of the lines of which something else is true.
fn otherwise_ordered(alloc: Global, lines: &'static str, due: bool) -> Option<&'static str> {
    for line in lines.lines() {
        if !is_order(alloc, line, due) {
            return Some(line);
        }
    }
    None
}

#[test]
fn exact_commands_are_views_with_their_flag_alone(rt: HostRuntime) {
    let otherwise = otherwise_ordered(rt.alloc(), NO_ORDERS, false);
    assert!(rt; otherwise.is_none(), "{otherwise:?}");
    let otherwise = otherwise_ordered(rt.alloc(), FILES, true);
    assert!(rt; otherwise.is_none(), "{otherwise:?}");
}

// Words behind the program's name, and what is said of them, in lines one after the other.
const SAID: &str = "\
values a b
gob: unexpected argument 'b' found
types --only Login
gob: unexpected argument '--only' found
values --only
gob: a value is required for '--only <TYPE>' but none was supplied
verify --typed f
gob: unexpected argument '--typed' found
values --as 66
gob: invalid value '66' for '--as <ID=KIND>': no type id, =, and one of \
    time.Time, big.Int, big.Float, big.Rat, uuid, netip.Addr, text, base64
values --as 66=big.int f
gob: invalid value '66=big.int' for '--as <ID=KIND>': no type id, =, and one of \
    time.Time, big.Int, big.Float, big.Rat, uuid, netip.Addr, text, base64
values --as =uuid
gob: invalid value '=uuid' for '--as <ID=KIND>': no type id, =, and one of \
    time.Time, big.Int, big.Float, big.Rat, uuid, netip.Addr, text, base64
values --as 66=uuid --as x=uuid --as z=text
gob: invalid value 'x=uuid' for '--as <ID=KIND>': no type id, =, and one of \
    time.Time, big.Int, big.Float, big.Rat, uuid, netip.Addr, text, base64
values --as 18446744073709551616=text
gob: invalid value '18446744073709551616=text' for '--as <ID=KIND>': no type id, =, and one of \
    time.Time, big.Int, big.Float, big.Rat, uuid, netip.Addr, text, base64
values --as 66=text=
gob: invalid value '66=text=' for '--as <ID=KIND>': no type id, =, and one of \
    time.Time, big.Int, big.Float, big.Rat, uuid, netip.Addr, text, base64
values --as
gob: a value is required for '--as <ID=KIND>' but none was supplied
values --main
gob: unexpected argument '--main' found
types --each
gob: unexpected argument '--each' found
types --as 66=text
gob: unexpected argument '--as' found
why --progress f
gob: unexpected argument '--progress' found
show --progress f
gob: bad arguments
check --progress f
gob: bad arguments
check --go --salvage
gob: unexpected argument '--salvage' found
why --salvage f
gob: unexpected argument '--salvage' found
show --salvage f g
gob: unexpected argument 'g' found
rewrite --go --progress f
gob: unexpected argument '--progress' found
verify
gob: the following required arguments were not provided: <FILE>...
join
gob: the following required arguments were not provided: <FILE>...
split a
gob: the following required arguments were not provided: <DIR>
write --line x
gob: invalid value 'x' for '--line <N>': no number from 0 to 18446744073709551615
values --line 5
gob: unexpected argument '--line' found
verify f --depth 0
gob: invalid value '0' for '--depth <N>': no number from 1 to 1000
values --deep 5
gob: unexpected argument '--deep' found
values --depth
gob: a value is required for '--depth <N>' but none was supplied
values --depth 0
gob: invalid value '0' for '--depth <N>': no number from 1 to 1000
values --depth 1001
gob: invalid value '1001' for '--depth <N>': no number from 1 to 1000
values --depth +5
gob: invalid value '+5' for '--depth <N>': no number from 1 to 1000
values --depth 5 --depth 6
gob: the argument '--depth <N>' cannot be used multiple times
values --zeros --zeros
gob: the argument '--zeros' cannot be used multiple times
values --raw=yes
gob: unexpected value 'yes' for '--raw' found; no more were expected
values --zero
gob: unexpected argument '--zero' found
types --depth 1001 f
gob: invalid value '1001' for '--depth <N>': no number from 1 to 1000
types --item x
gob: invalid value 'x' for '--item <N>': no number from 0 to 18446744073709551615
types --raw
gob: unexpected argument '--raw' found
why --raw
gob: unexpected argument '--raw' found
why --depth 1001 f
gob: invalid value '1001' for '--depth <N>': no number from 1 to 1000
why --fault
gob: unexpected argument '--fault' found
types --at 1
gob: unexpected argument '--at' found
explain --at x
gob: invalid value 'x' for '--at <N>': no number from 0 to 18446744073709551615
explain --depth 1001
gob: invalid value '1001' for '--depth <N>': no number from 1 to 1000
explain --raw
gob: unexpected argument '--raw' found
version --zeros
gob: unexpected argument '--zeros' found
version now
gob: unexpected argument 'now' found
check --go --depth 1001
gob: invalid value '1001' for '--depth <N>': no number from 1 to 1000
check --go a b
gob: unexpected argument 'b' found
check a --go=yes
gob: bad arguments
check --depth 0 -- --go
gob: bad arguments
show --go --depth 0
gob: invalid value '0' for '--depth <N>': no number from 1 to 1000
rewrite --go --depth 1001
gob: invalid value '1001' for '--depth <N>': no number from 1 to 1000
rewrite --hoist a b
gob: unexpected argument 'b' found
rewrite --tagged
gob: bad arguments
check --hoist
gob: bad arguments
types --tagged
gob: unexpected argument '--tagged' found
take a --go
gob: bad arguments

gob: bad arguments
list
gob: bad arguments
check f
gob: bad arguments
check --depth 0 f
gob: bad arguments
check a b
gob: bad arguments
show f
gob: bad arguments
show a b
gob: bad arguments
show --zeros
gob: bad arguments
--depth 5 values
gob: bad arguments";

// Whether the fault has this text, and status 2.
fn has_text(alloc: Global, fault: &ViewFault, said: &str) -> bool {
    match fault.to_string(alloc) {
        Ok(text) => text.as_str() == said && fault.status() == 2,
        Err(_) => false,
    }
}

// Whether this is said of the words.
fn is_said(alloc: Global, words: &[&str], said: &str) -> bool {
    match view_of(alloc, words) {
        Ok(_) => false,
        Err(fault) => has_text(alloc, &fault, said),
    }
}

// Whether it is said of those of the line.
fn is_line_said(alloc: Global, line: &str, said: &str) -> bool {
    match words_of(alloc, line) {
        Ok(words) => is_said(alloc, &words, said),
        Err(_) => false,
    }
}

// The words of which something else is said.
fn otherwise_said(alloc: Global) -> Option<&'static str> {
    let mut lines = SAID.split('\n');
    while let Some(line) = lines.next() {
        if !is_line_said(alloc, line, lines.next().unwrap_or("")) {
            return Some(line);
        }
    }
    None
}

#[test]
fn faults_name_the_word(rt: HostRuntime) {
    let otherwise = otherwise_said(rt.alloc());
    assert!(rt; otherwise.is_none(), "{otherwise:?}");
}

// Texts, and how they are shown.
const SHOWN: [(&str, &str); 5] = [
    ("a'é\"", "a'é\""),
    ("\u{1b}[2J", "\\u{1b}[2J"),
    ("\u{7f}\u{9b}", "\\u{7f}\\u{9b}"),
    ("\u{202e}\u{2066}", "\\u{202e}\\u{2066}"),
    ("\u{2028}\n", "\\u{2028}\\u{a}"),
];

fn is_shown(alloc: Global, text: &str, shown: &str) -> bool {
    match escaped(alloc, text) {
        Ok(line) => line.as_str() == shown,
        Err(_) => false,
    }
}

// Whether the word that stands behind `values f` is told so.
fn is_told(alloc: Global, word: &str, told: &str) -> bool {
    match view_of(alloc, &["gob", "values", "f", word]) {
        Err(ViewFault::Word(line)) => line.as_str() == told,
        _ => false,
    }
}

// Words, and how they are told.
const TOLD: [(&str, &str); 2] = [
    ("a\u{1b}b", "unexpected argument 'a\\u{1b}b' found"),
    ("a\nb", "unexpected argument 'a b' found"),
];

#[test]
fn no_word_reaches_the_terminal_raw(rt: HostRuntime) {
    for (text, shown) in &SHOWN {
        assert!(rt; is_shown(rt.alloc(), text, shown), "{shown}");
    }
    for (word, told) in &TOLD {
        assert!(rt; is_told(rt.alloc(), word, told), "{told}");
    }
}

#[test]
fn help_is_an_orders_fault(rt: HostRuntime) {
    let is_help = match view_of(rt.alloc(), &["gob", "values", "--help"]) {
        Err(ViewFault::Order(OrderFault::Help(_))) => true,
        _ => false,
    };
    assert!(rt; is_help, "values --help");
}
