//! A sink that makes lines of the rows of a body.

ghost use Rattle.std.specs.Prelude.{◌≡◌, ◌<◌, ◌≤◌, ◌++◌, ◌∷◌, [], ℕ, List, None, Some, length, MatchBool};
ghost use Rattle.gob_types.specs.Defined.{types};
ghost use Rattle.gob_types.specs.Table.{shape_of};
ghost use Rattle.gob_explain.specs.declared.row.Row.{Row};
ghost use Rattle.gob_explain.specs.declared.text.printer.Line.{Line};
ghost use Rattle.gob_explain.specs.Items.{ShowsBodyTo};
ghost use Rattle.gob_explain.specs.Lines.{IsFollowed, IsOpen, StandsBehind, last_of};
ghost use Rattle.gob_explain.specs.Machine.Printing.{EndsLine, FitsIn, HasPrinted, IsLineText, PrintsAlone};
ghost use Rattle.gob_explain.specs.Machine.Printing.{PrintsRows, TellsRow};
ghost use Rattle.gob_explain.specs.Putting.{PutsMore};
ghost use Rattle.gob_explain.specs.Walk.{between};

use crate::body::{Walked, walk_body};
use crate::row::{PartStep, Row, What};
use crate::sink::RowSink;
use crate::text::heads::{size_meaning, type_meaning};
use crate::text::labels::push_label;
use crate::text::lines_out::LinesOut;
use crate::text::names::push_type_name;
use crate::text::values::{Behind, push_value};
use gob_json::TextOut;
use gob_stream::Limits;
use gob_types::{Basic, Kind, Shapes, Table, TypeId};
use std::alloc::{AllocError, Global};
use std::convert::Infallible;

const TAG: &str = "the tag of a value that is no struct";

// The rows of a value stand so many levels deeper than its item, with what the value's depth counts.
const OUTER: u64 = 1;

// Makes lines of the rows of a body. A delta stands in the line of its field's first number, a count of bytes in that
// of the bytes, the name of what an interface holds in that of the interface, and the two numbers of a complex in one.
// It is taken apart in the end, and not dropped: so what was put out is known.
struct Printer<'a, 'o, O: TextOut> {
    alloc: Global,
    table: &'a Table,
    // The bytes of the body behind the type number, and the offset in the stream of the first of them.
    body: &'a [u8],
    offset: u64,
    // The steps to the part at hand.
    path: Vec<PartStep>,
    line: Option<Line>,
    // Where the lines that have ended go.
    lines: &'o mut LinesOut<O>,
}

// The line under way: where its bytes begin and end, how deep it lies, and the part's first number, if it came.
#[derive(Clone, Copy)]
struct Line {
    begin: usize,
    end: usize,
    depth: u64,
    first: Option<Row>,
}

impl Line {
    fn of(row: &Row) -> Line
        ensures begin { result.begin ≡ row.now.begin }
        ensures end { result.end ≡ row.now.end }
        ensures depth { result.depth ≡ row.now.depth }
    {
        Line {
            begin: row.begin,
            end: row.end,
            depth: row.depth,
            first: None,
        }
    }
}

/// Puts out the lines of a body behind its type number, which stands at this offset of the stream, as far as its rows
/// lead. A value of a type that isn't ready has no rows, and none may be deeper than 1000.
pub fn push_body<'a, O: TextOut>(
    alloc: Global,
    table: &'a Table,
    id: TypeId,
    body: &'a [u8],
    offset: u64,
    lines: &mut LinesOut<O>,
) -> Walked
    ensures put { PutsMore O.puts lines.old.out lines.old.fault lines.new.out lines.new.fault
        (ShowsBodyTo (types table.now) id offset body.now result.place) }
    ensures inside { result.place ≤ length body.now }
{
    let mut printer = Printer {
        alloc,
        table,
        body,
        offset,
        path: Vec::new(alloc),
        line: None,
        lines,
    };
    let walked = printer.print(id);
    let Printer {
        alloc: _,
        table: _,
        body: _,
        offset: _,
        path: _steps,
        line: _,
        lines: _put_to,
    } = printer;
    walked
}

impl<'a, O: TextOut> Printer<'a, '_, O> {
    // Puts out the lines of the body, whose type this is.
    fn print(&mut self, id: TypeId) -> Walked
        requires { self.old.line ≡ None }
        ensures same { self.new.lines.ghost_name ≡ self.old.lines.ghost_name }
        ensures put { PutsMore O.puts self.old.lines.now.out self.old.lines.now.fault self.new.lines.now.out
            self.new.lines.now.fault
            (ShowsBodyTo (types self.old.table.now) id self.old.offset self.old.body.now result.place) }
        ensures inside { result.place ≤ length self.old.body.now }
    {
        let table = self.table;
        let body = self.body;
        let walked = match walk_body(table, id, body, Limits::GREATEST_DEPTH, self) {
            Ok(walked) => walked,
            Err(never) => match never {},
        };
        self.end_line(Behind::Missing);
        walked
    }

    // Ends the line under way, if there is one.
    fn end_line(&mut self, behind: Behind<'_>)
        ensures same { self.new.lines.ghost_name ≡ self.old.lines.ghost_name }
        ensures offset { self.new.offset ≡ self.old.offset }
        ensures body { self.new.body ≡ self.old.body }
        ensures table { self.new.table ≡ self.old.table }
        ensures none { self.new.line ≡ None }
        ensures ended { PutsMore O.puts self.old.lines.now.out self.old.lines.now.fault self.new.lines.now.out
            self.new.lines.now.fault
            (EndsLine (types self.old.table.now) self.old.offset self.old.body.now self.old.line) }
    {
        let Some(line) = self.line.take() else {
            return;
        };
        let meaning = self.meaning(&line, behind);
        self.push(&line, meaning)
    }

    // What the line says of its bytes. It is not looked for where no line is put out any more.
    fn meaning(&self, line: &Line, behind: Behind<'_>) -> Result<String, AllocError> {
        let mut meaning = String::new(self.alloc);
        if self.lines.has_failed() {
            return Ok(meaning);
        }
        push_label(self.alloc, self.table, &self.path, &mut meaning)?;
        if let Some(row) = line.first {
            if !meaning.is_empty() {
                meaning.push(' ')?;
            }
            push_value(self.alloc, self.table, &row, behind, &mut meaning)?;
        }
        Ok(meaning)
    }

    // Puts out a line.
    fn push(&mut self, line: &Line, meaning: Result<String, AllocError>)
        ensures same { self.new.lines.ghost_name ≡ self.old.lines.ghost_name }
        ensures offset { self.new.offset ≡ self.old.offset }
        ensures body { self.new.body ≡ self.old.body }
        ensures table { self.new.table ≡ self.old.table }
        ensures under_way { self.new.line ≡ self.old.line }
        ensures added { PutsMore O.puts self.old.lines.now.out self.old.lines.now.fault self.new.lines.now.out
            self.new.lines.now.fault (IsLineText self.old.offset self.old.body.now line.now) }
    {
        let bytes = self.bytes(line.begin, line.end);
        let offset = self.offset.saturating_add(line.begin as u64);
        let levels = line.depth.saturating_add(OUTER);
        self.lines.put_line(offset, bytes, levels, meaning)
    }

    // The bytes from one place up to the other.
    fn bytes(&self, begin: usize, end: usize) -> &'a [u8]
        ensures { begin ≤ end → end ≤ length self.now.body.now → result.now ≡ between begin end self.now.body.now }
    {
        self.body.get(begin..end).unwrap_or(&[])
    }

    // Begins a line with the row, or goes on in the one under way.
    fn go_on(&mut self, row: &Row)
        ensures lines { self.new.lines ≡ self.old.lines }
        ensures offset { self.new.offset ≡ self.old.offset }
        ensures body { self.new.body ≡ self.old.body }
        ensures table { self.new.table ≡ self.old.table }
        ensures under_way { (line : Line) × (self.new.line ≡ Some line) }
        ensures printed { (text : List ℕ) (rows : List Row) → row.now.begin < row.now.end
            → row.now.end ≤ length self.old.body.now
            → FitsIn (types self.old.table.now) self.old.line (last_of rows) row.now
            → HasPrinted (types self.old.table.now) self.old.offset self.old.body.now self.old.line text rows
            row.now.begin
            → HasPrinted (types self.old.table.now) self.old.offset self.old.body.now self.new.line text
            (rows ++ row.now ∷ []) row.now.end }
    {
        let mut line = self.line.unwrap_or(Line::of(row));
        line.end = row.end;
        if row.what == What::First {
            line.first = Some(*row);
        }
        self.line = Some(line);
    }

    // Puts out a row, on a line of its own.
    fn push_row(&mut self, row: &Row, meaning: Result<String, AllocError>)
        ensures same { self.new.lines.ghost_name ≡ self.old.lines.ghost_name }
        ensures offset { self.new.offset ≡ self.old.offset }
        ensures body { self.new.body ≡ self.old.body }
        ensures table { self.new.table ≡ self.old.table }
        ensures under_way { self.new.line ≡ self.old.line }
        ensures printed { PutsMore O.puts self.old.lines.now.out self.old.lines.now.fault self.new.lines.now.out
            self.new.lines.now.fault
            (PrintsAlone (types self.old.table.now) self.old.offset self.old.body.now row.now) }
    {
        self.push(&Line::of(row), meaning)
    }

    // What the end of a struct is called: its place in a list or map, or its type.
    fn end_of_struct(&self, id: TypeId) -> Result<String, AllocError> {
        let mut name = String::new(self.alloc);
        match self.path.last() {
            Some(PartStep::Field { .. } | PartStep::Held(_)) | None => {
                push_type_name(self.alloc, self.table, id, &mut name)?;
            }
            _ => push_label(self.alloc, self.table, &self.path, &mut name)?,
        }
        let mut text = String::from_str(self.alloc, "end")?;
        if !name.is_empty() {
            text.push_str(" of ")?;
            text.push_str(name.as_str())?;
        }
        Ok(text)
    }

    fn put_row(&mut self, row: &Row)
        ensures same { self.new.lines.ghost_name ≡ self.old.lines.ghost_name }
        ensures offset { self.new.offset ≡ self.old.offset }
        ensures body { self.new.body ≡ self.old.body }
        ensures table { self.new.table ≡ self.old.table }
        ensures told { PutsMore O.puts self.old.lines.now.out self.old.lines.now.fault self.new.lines.now.out
            self.new.lines.now.fault
            (TellsRow (types self.old.table.now) self.old.offset self.old.body.now self.old.line self.new.line
            row.now) }
    {
        match row.what {
            What::Tag => self.put_alone(row, String::from_str(self.alloc, TAG)),
            What::Delta => self.put_delta(row),
            What::TypeNumber => self.put_alone(
                row,
                type_meaning(self.alloc, self.table, row.number),
            ),
            What::Segment => self.put_alone(row, size_meaning(self.alloc, "a segment", row.number)),
            What::First => self.put_first(row),
            What::Imaginary => self.put_last(row, Behind::Imaginary(row.number)),
            What::Raw => self.put_last(row, Behind::Raw(self.bytes(row.begin, row.end))),
        }
    }

    // The first number of a part goes on in the line under way, or begins one, and ends it where nothing follows it.
    fn put_first(&mut self, row: &Row)
        ensures same { self.new.lines.ghost_name ≡ self.old.lines.ghost_name }
        ensures offset { self.new.offset ≡ self.old.offset }
        ensures body { self.new.body ≡ self.old.body }
        ensures table { self.new.table ≡ self.old.table }
        ensures told { row.now.what ≡ What.First → PutsMore O.puts self.old.lines.now.out self.old.lines.now.fault
            self.new.lines.now.out self.new.lines.now.fault
            (TellsRow (types self.old.table.now) self.old.offset self.old.body.now self.old.line self.new.line
            row.now) }
    {
        if goes_on(self.table, row) {
            self.go_on(row);
            return;
        }
        self.put_last(row, Behind::Nothing)
    }

    // The row ends the line that it goes on in.
    fn put_last(&mut self, row: &Row, behind: Behind<'_>)
        ensures same { self.new.lines.ghost_name ≡ self.old.lines.ghost_name }
        ensures offset { self.new.offset ≡ self.old.offset }
        ensures body { self.new.body ≡ self.old.body }
        ensures table { self.new.table ≡ self.old.table }
        ensures told { StandsBehind row.now.what → ¬ IsOpen (types self.old.table.now) row.now
            → PutsMore O.puts self.old.lines.now.out self.old.lines.now.fault self.new.lines.now.out
            self.new.lines.now.fault
            (TellsRow (types self.old.table.now) self.old.offset self.old.body.now self.old.line self.new.line
            row.now) }
    {
        self.go_on(row);
        self.end_line(behind)
    }

    // Ends the line under way, and gives the row one of its own.
    fn put_alone(&mut self, row: &Row, meaning: Result<String, AllocError>)
        ensures same { self.new.lines.ghost_name ≡ self.old.lines.ghost_name }
        ensures offset { self.new.offset ≡ self.old.offset }
        ensures body { self.new.body ≡ self.old.body }
        ensures table { self.new.table ≡ self.old.table }
        ensures told { ¬ StandsBehind row.now.what → ¬ IsOpen (types self.old.table.now) row.now
            → PutsMore O.puts self.old.lines.now.out self.old.lines.now.fault self.new.lines.now.out
            self.new.lines.now.fault
            (TellsRow (types self.old.table.now) self.old.offset self.old.body.now self.old.line self.new.line
            row.now) }
    {
        self.end_line(Behind::Missing);
        self.push_row(row, meaning)
    }

    // A delta begins the line of its field, and a 0 ends the struct.
    fn put_delta(&mut self, row: &Row)
        ensures same { self.new.lines.ghost_name ≡ self.old.lines.ghost_name }
        ensures offset { self.new.offset ≡ self.old.offset }
        ensures body { self.new.body ≡ self.old.body }
        ensures table { self.new.table ≡ self.old.table }
        ensures told { row.now.what ≡ What.Delta → PutsMore O.puts self.old.lines.now.out self.old.lines.now.fault
            self.new.lines.now.out self.new.lines.now.fault
            (TellsRow (types self.old.table.now) self.old.offset self.old.body.now self.old.line self.new.line
            row.now) }
    {
        if row.number == 0 {
            let meaning = self.end_of_struct(row.id);
            self.put_alone(row, meaning);
            return;
        }
        self.end_line(Behind::Missing);
        self.go_on(row);
    }
}

impl<O: TextOut> RowSink for Printer<'_, '_, O> {
    ghost use Rattle.gob_explain.specs.Machine.Printing.{prints_both, prints_nothing};
    ghost use Rattle.std.proofs.Common.{refl, ◌∙◌};

    type Fault = Infallible;

    ghost tells = { λ (old, from) (new, to) rows result. (new.lines.ghost_name ≡ old.lines.ghost_name)
        × PrintsRows O.puts (types old.table.now) old.offset old.body.now old.line old.lines.now.out
        old.lines.now.fault (types new.table.now) new.offset new.body.now new.line new.lines.now.out
        new.lines.now.fault rows };

    fn put(&mut self, row: Row) -> Result<(), Infallible> {
        self.put_row(&row);
        Ok(())
    }

    fn enter(&mut self, step: PartStep) -> Result<(), Infallible> {
        if self.path.push(step).is_err() {
            self.lines.want_memory();
        }
        Ok(())
    }

    fn leave(&mut self) {
        self.path.pop();
    }

    ghost nothing = { λ a. (
      refl,
      prints_nothing O.puts O.nothing (types a.0.table.now) a.0.offset a.0.body.now a.0.line a.0.lines.now.out
          a.0.lines.now.fault,
    ) };

    ghost joined = { λ a b c x y r p q. (
      q.0 ∙ p.0,
      prints_both O.puts O.joined O.cut (types a.0.table.now) a.0.offset a.0.body.now a.0.line a.0.lines.now.out
          a.0.lines.now.fault (types b.0.table.now) b.0.offset b.0.body.now b.0.line b.0.lines.now.out
          b.0.lines.now.fault (types c.0.table.now) c.0.offset c.0.body.now c.0.line c.0.lines.now.out
          c.0.lines.now.fault x y p.1 q.1,
    ) };
}

// Whether the first number of a part is followed by more in the same line.
fn goes_on(table: &Table, first: &Row) -> bool
    ensures { MatchBool result (IsFollowed (shape_of (types table.now) first.now.id) first.now.number)
        (¬ IsFollowed (shape_of (types table.now) first.now.id) first.now.number) }
{
    let Some(shape) = table.shape_of(first.id) else {
        return false;
    };
    let some = first.number > 0;
    match &shape.kind {
        Kind::Basic(Basic::Complex) => true,
        Kind::Basic(Basic::Bytes | Basic::Str | Basic::Interface) | Kind::Opaque(_) => some,
        _ => false,
    }
}
