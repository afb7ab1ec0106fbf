//! What no proof shows of writers: the bytes of the documented rows, that each call succeeds, and writers that fail.

use crate::devices::{Device, Wrong};
use crate::values;
use gob_num::Memory;
use gob_stream::{
    Input, Item, Limits, Output, StreamWriter, WriteFault, WriteStop, read_stream, write_stream,
};
use gob_test_rows::{Judge, List, Row, part, value_of, wrong_row, wrong_row_wanting};
use gob_types::{Reason, Table, TypeId};
use gob_value::Value;
use std::alloc::{AllocError, Global};
use std::io::Write;

// How writers go wrong.
static WRONGS: [Wrong; 3] = [Wrong::Interrupted, Wrong::Broken, Wrong::Zero];

// Whether this writer answers so when it is given an int, then the same as a uint and as a description, and the int
// again.
fn are_answers(
    alloc: Global,
    writer: &mut StreamWriter,
    output: &mut Output<&mut Device>,
    due: &[Result<(), WriteFault>],
) -> bool {
    let int = Value::Int(3);
    let answers = [
        writer.put(alloc, output, TypeId(2), &int),
        writer.put(alloc, output, TypeId(3), &int),
        writer.define(alloc, output, TypeId(65), &int),
        writer.put(alloc, output, TypeId(2), &int),
    ];
    answers.as_slice() == due
}

// Whether a new writer does.
fn answers_so(alloc: Global, device: &mut Device, due: &[Result<(), WriteFault>]) -> bool {
    let mut output = Output::new(device);
    match StreamWriter::new(alloc, Limits::standard()) {
        Ok(mut writer) => are_answers(alloc, &mut writer, &mut output, due),
        Err(Memory) => false,
    }
}

// Whether it does, and writes these bytes.
fn is_answered(
    alloc: Global,
    mut device: Device,
    due: &[Result<(), WriteFault>],
    bytes: &[u8],
) -> bool {
    answers_so(alloc, &mut device, due) && device.taken.as_slice() == bytes
}

#[test]
fn writers_go_on_after_a_refusal(rt: HostRuntime) {
    let refused = Err(WriteFault::Refused(Reason::DoesNotFit));
    let due = [Ok(()), refused, refused, Ok(())];
    let device = Device::sound(rt.alloc());
    assert!(rt;
        is_answered(
            rt.alloc(),
            device,
            &due,
            b"\x03\x04\x00\x06\x03\x04\x00\x06"
        )
    );
}

#[test]
fn writers_write_no_more_after_a_failed_write(rt: HostRuntime) {
    let failed = Err(WriteFault::Failed);
    let due = [Err(WriteFault::Write), failed, failed, failed];
    let device = Device::slow(rt.alloc(), 3, Wrong::Broken);
    assert!(rt; is_answered(rt.alloc(), device, &due, b"\x03\x04"));
}

// Three items of 4 bytes each.
static THREE: [u8; 12] = *b"\x03\x04\x00\x06\x03\x06\x00\x07\x03\x02\x00\x01";

// Those items, where memory suffices.
fn three(alloc: Global, bytes: &[u8]) -> Vec<Item<Value>> {
    let mut items = Vec::new(alloc);
    let mut input = Input::new(bytes);
    let _ = read_stream(alloc, &mut input, Limits::standard(), &mut items);
    items
}

// Whether a writer that takes a byte a call is given all of the items.
fn is_slowly_written(alloc: Global, items: &[Item<Value>]) -> bool {
    let mut device = Device::slow(alloc, 0, Wrong::Nothing);
    let answer = write_stream(
        alloc,
        &mut Output::new(&mut device),
        items,
        Limits::standard(),
    );
    answer.is_ok() && device.taken.as_slice() == THREE.as_slice()
}

// Whether the writing of the three items ends with the call behind so many of them, which is
// counted as failed.
fn is_cut_there(alloc: Global, items: &[Item<Value>], out: usize, wrong: Wrong) -> bool {
    let mut device = Device::slow(alloc, (out as u64).saturating_add(1), wrong);
    let mut output = Output::new(&mut device);
    let answer = write_stream(alloc, &mut output, items, Limits::standard());
    let cut = WriteStop {
        item: out as u64 / 4,
        fault: WriteFault::Write,
    };
    let is_counted = output.failures() == 1;
    answer == Err(cut) && is_counted && THREE.get(..out) == Some(device.taken.as_slice())
}

// Whether it ends so behind each number of bytes.
fn is_cut_anywhere(alloc: Global, items: &[Item<Value>]) -> bool {
    for out in 0..THREE.len() {
        for wrong in &WRONGS {
            if !is_cut_there(alloc, items, out, *wrong) {
                return false;
            }
        }
    }
    true
}

// Whether a slow writer is given all of these items, and a failed write is the last.
fn are_written(alloc: Global, items: &[Item<Value>]) -> bool {
    is_slowly_written(alloc, items) && is_cut_anywhere(alloc, items)
}

// Whether it is so with the three items.
fn are_three_written(alloc: Global) -> bool {
    let items = three(alloc, &THREE);
    are_written(alloc, &items)
}

#[test]
fn slow_writers_are_given_all_up_to_a_failed_write(rt: HostRuntime) {
    assert!(rt; are_three_written(rt.alloc()), "three items");
}

// How many failures an output counts when it is flushed, where its answer says as much.
fn flush_failures(device: &mut Device) -> Option<u64> {
    let mut output = Output::new(device);
    let is_flushed = output.flush().is_ok();
    let failures = output.failures();
    if is_flushed == (failures == 0) {
        Some(failures)
    } else {
        None
    }
}

#[test]
fn a_failed_flush_is_counted(rt: HostRuntime) {
    let sound = flush_failures(&mut Device::sound(rt.alloc()));
    let clogged = flush_failures(&mut Device::clogged(rt.alloc()));
    assert!(rt; sound == Some(0) && clogged == Some(1));
}

// What stops the writing of three items of 4 bytes each, the limits for items and for the stream, how many go out, and
// why the next one doesn't.
const STOPS: &str = "
nothing | 3 12 3
items of 2 | 2 12 0 |  |  | ItemTooLong
items of 2 in a stream of 3 | 2 3 0 |  |  | ItemTooLong
a stream of 11 | 3 11 2 |  |  | StreamTooLong
a stream of 7 | 3 7 1 |  |  | StreamTooLong
a stream of 3 | 3 3 0 |  |  | StreamTooLong
a stream of nothing | 3 0 0 |  |  | StreamTooLong
";

// Whether the writing stopped at this item for the reason of this name, or not at all where there is none.
fn is_stopped(alloc: Global, answer: Result<(), WriteStop>, item: u64, reason: &str) -> bool {
    match answer {
        Ok(()) => reason.is_empty(),
        Err(stop) => stop.item == item && is_named(alloc, stop.fault, reason),
    }
}

// Whether it is a refusal for the reason of this name.
fn is_named(alloc: Global, fault: WriteFault, name: &str) -> bool {
    let WriteFault::Refused(reason) = fault else {
        return false;
    };
    match reason.to_string(alloc) {
        Ok(printed) => printed.as_str() == name,
        Err(_) => false,
    }
}

// Whether it is a refusal for the reason of this name that is answered.
fn is_due(alloc: Global, answer: Result<(), WriteFault>, name: &str) -> bool {
    match answer {
        Ok(()) => false,
        Err(fault) => is_named(alloc, fault, name),
    }
}

// Whether the writing of these items stops there for this reason, and those before it are written.
fn stops_there(
    alloc: Global,
    items: &[Item<Value>],
    limits: Limits,
    item: u64,
    reason: &str,
) -> bool {
    let mut device = Device::sound(alloc);
    let answer = write_stream(alloc, &mut Output::new(&mut device), items, limits);
    is_stopped(alloc, answer, item, reason) && device.calls == item
}

// Whether the writing of the three items stops as the row says.
fn stops_so(alloc: Global, row: &Row, reason: &str) -> bool {
    let items = three(alloc, &THREE);
    match Limits::new(row.number(0), 1, 0, row.number(1)) {
        Some(limits) => stops_there(alloc, &items, limits, row.number(2), reason),
        None => false,
    }
}

// What is refused behind the definition of type 65 as an array of one element of some type, under a depth of 4: the
// limits for items, for types and for the stream, the type of the element, and the type of the call; its value; the
// reason; and the call. Where several reasons hold, the first is given.
const REFUSED: &str = "
a basic type is defined | 99 1 99 2 2 | 1 many:1 many:1 many:1 many:1 |  | ReservedType(2) | define
an id that no type has | 99 2 99 2 63 | nil |  | ReservedType(63) | define
an id beyond the greatest | 99 2 99 2 2147483648 | nil |  | ReservedType(2147483648) | define
defined twice | 99 1 99 2 65 | 1 many:1 many:1 many:1 many:1 |  | DefinedTwice(65) | define
a definition too many | 99 1 99 2 66 | 1 many:1 many:1 many:1 many:1 |  | TooManyTypes | define
a deep description | 99 2 99 2 66 | 1 many:1 many:1 many:1 many:1 |  | TooDeep | define
no description | 99 2 99 2 66 | nil |  | DoesNotFit | define
no kind | 99 2 99 2 66 | fields: |  | KindCount | define
another id | 99 2 99 2 66 | 67 fields:1 24 -1 fields:0,1,2 fields:0 |  | WrongId | define
a reference to 24 | 99 2 99 2 66 | 66 fields:1 24 -1 fields:0,1,2 fields:0 |  | BadReference | define
a Len below 0 | 14 2 99 2 66 | 66 fields:1 2 -1000 fields:0,1,2 fields:0 |  | BadLength | define
a long definition | 14 2 33 2 66 | 66 fields:1 2147483647 1 fields:0,1,2 fields:0 |  | ItemTooLong | define
a long stream | 18 2 33 2 66 | 66 fields:1 2147483647 1 fields:0,1,2 fields:0 |  | StreamTooLong | define
type 0 | 99 1 99 2 0 | 1 many:1 many:1 many:1 many:1 |  | UndefinedType(0) | put
type 24 | 99 1 99 2 24 | 1 many:1 many:1 many:1 many:1 |  | UndefinedType(24) | put
no such type | 99 1 99 2 66 | 1 many:1 many:1 many:1 many:1 |  | UndefinedType(66) | put
an array of no such type | 99 1 99 66 65 | 1 many:1 many:1 many:1 many:1 |  | UndefinedType(66) | put
an array of itself | 99 1 99 65 65 | 1 many:1 many:1 many:1 many:1 |  | Bottomless(65) | put
a deep array | 99 1 99 2 65 | 1 many:1 many:1 many:1 many:1 |  | TooDeep | put
nil as an array | 99 1 99 2 65 | nil |  | DoesNotFit | put
nil as a wireType | 99 1 99 2 16 | nil |  | DoesNotFit | put
lists as an int | 99 1 99 2 2 | 1 many:1 many:1 many:1 |  | DoesNotFit | put
deep lists as an int | 99 1 99 2 2 | 1 many:1 many:1 many:1 many:1 |  | TooDeep | put
deeper lists | 99 1 99 2 2 | 1 many:1 many:1 many:1 many:1 many:1 many:1 many:1 many:1 many:1 |  | TooDeep | put
";

// The description of type 65 as an array of one element of this type.
fn described_array(alloc: Global, elem: u64) -> Result<Value, AllocError> {
    let text = format!(in alloc; "65 fields:1 {elem} 1 fields:0,1,2 fields:0")?;
    value_of(alloc, &text)
}

// Defines the row's type or puts its value, as the call says.
fn tell(
    alloc: Global,
    writer: &mut StreamWriter,
    output: &mut Output<&mut Device>,
    row: &Row,
    call: &str,
) -> Result<(), WriteFault> {
    let id = TypeId(row.number(4));
    if call == "define" {
        writer.define(alloc, output, id, &row.value)
    } else {
        writer.put(alloc, output, id, &row.value)
    }
}

// What is answered to the definition, and to what comes behind it.
fn answers(
    alloc: Global,
    device: &mut Device,
    limits: Limits,
    described: &Value,
    row: &Row,
    call: &str,
) -> Result<(), WriteFault> {
    let mut output = Output::new(device);
    let mut writer = StreamWriter::new(alloc, limits)?;
    writer.define(alloc, &mut output, TypeId(65), described)?;
    tell(alloc, &mut writer, &mut output, row, call)
}

// Whether it is refused for this reason, and the definition before it is all that goes out.
fn is_refused(
    alloc: Global,
    limits: Limits,
    described: &Value,
    row: &Row,
    reason: &str,
    call: &str,
) -> bool {
    let mut device = Device::sound(alloc);
    let answer = answers(alloc, &mut device, limits, described, row, call);
    is_due(alloc, answer, reason) && device.calls == 1
}

// Whether it is refused as the row says.
fn is_refused_so(alloc: Global, row: &Row, text: &str) -> Result<bool, Memory> {
    let described = described_array(alloc, row.number(3))?;
    match Limits::new(row.number(0), 4, row.number(1), row.number(2)) {
        Some(limits) => {
            let (reason, call) = (part(text, 4), part(text, 5));
            Ok(is_refused(alloc, limits, &described, row, reason, call))
        }
        None => Ok(false),
    }
}

// What is judged of a row.
#[derive(Clone, Copy)]
enum Judged {
    // Its value is written, also by its spelling, and that is cut anywhere.
    Value,
    Written,
    Spelled,
    Stopped,
    Refused,
}

static LISTS: [List<Judged>; 3] = [
    List(Judged::Value, "", values::VALUES),
    List(Judged::Stopped, "", STOPS),
    List(Judged::Refused, "", REFUSED),
];

// The lists, named in one function, since a table costs the proof of each that names it.
fn lists() -> &'static [List<Judged>; 3] {
    &LISTS
}

// Those of which each allocation is refused.
static WANTING: [List<Judged>; 2] = [
    List(Judged::Written, "", values::VALUES),
    List(Judged::Spelled, "", values::SPELLED),
];

// Whether the writing of the row's value by its spelling is cut anywhere, however it goes wrong.
fn is_spelling_cut(alloc: Global, row: &Row) -> bool {
    for wrong in &WRONGS {
        if !values::is_cut_anywhere(alloc, row, *wrong) {
            return false;
        }
    }
    true
}

// Whether the row's value is written, also by its spelling, and that is cut anywhere.
fn is_value(alloc: Global, row: &Row) -> Result<bool, Memory> {
    Ok(
        values::is_written(alloc, row)?
            && values::is_written_spelled(alloc, row)?
            && is_spelling_cut(alloc, row),
    )
}

// Whether the row's value is written as it says.
fn is_as_said(alloc: Global, judged: Judged, text: &str, row: &Row) -> Result<bool, Memory> {
    match judged {
        Judged::Value => is_value(alloc, row),
        Judged::Written => values::is_written(alloc, row),
        Judged::Spelled => values::is_written_spelled(alloc, row),
        Judged::Stopped => Ok(stops_so(alloc, row, part(text, 4))),
        Judged::Refused => is_refused_so(alloc, row, text),
    }
}

impl Judge for Judged {
    fn is_right(&self, alloc: Global, _table: &Table, text: &str) -> Result<bool, Memory> {
        let row = Row::read(alloc, text)?;
        is_as_said(alloc, *self, text, &row)
    }
}

#[test]
fn items_are_written_as_rows_say(rt: HostRuntime) {
    let row = wrong_row(rt.alloc(), lists());
    assert!(rt; row.is_empty(), "{row}");
}

// tools/refuse-memory runs this with each allocation refused in turn.
#[test]
fn writing_wants_memory(rt: HostRuntime) {
    let row = wrong_row_wanting(rt.alloc(), &WANTING);
    assert!(rt; row.is_empty(), "{row}");
}
