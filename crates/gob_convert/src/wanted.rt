//! The type that values are received as.

ghost use Rattle.std.specs.Prelude.{◌≡◌, ◌<◌, ℕ, List, [], ◌∷◌, ◌++◌, Option, Some, length, IfErr, IfOk, IfSome, OnOk};
ghost use Rattle.gob_types.specs.Defined.{types};
ghost use Rattle.gob_types.specs.Ready.{IsReady};
ghost use Rattle.gob_types.specs.Table.{Table as Types};
ghost use Rattle.gob_value.specs.View.{view};
ghost use Rattle.gob_value.specs.declared.value.Value.{Value as GoValue};
ghost use Rattle.gob_stream.specs.Bounds.{within_trees};
ghost use Rattle.gob_stream.specs.Calls.Ends.{failed_reads, reader_of};
ghost use Rattle.gob_filled.specs.Stream.{FilledItem, defining};
ghost use Rattle.gob_go.specs.Calls.Reader.{HasReadFrom, session_of, waits_in};
ghost use Rattle.gob_go.specs.Calls.Session.{limits_of as session_limits};
ghost use Rattle.gob_go.specs.Meaning.{ItemMeans};
ghost use Rattle.gob_go_writer.specs.Calls.Writer.{limits_of, types_of};
ghost use Rattle.gob_tool.specs.Fault.{wanted_fault};
ghost use Rattle.gob_convert.specs.Faults.{IsAmongRenames};
ghost use Rattle.gob_convert.specs.Machine.Wanted.{CountsWanted, FindsFront, FindsTarget, FrontNext, FrontSo, IsFront};
ghost use Rattle.gob_convert.specs.Machine.Wanted.{IsSomeFront, IsTarget, IsTargetStop, IsWantedStop};
ghost use Rattle.gob_convert.specs.Machine.Wanted.{NotesItem, StopsPutting};

use crate::fault::ConvertFault;
use crate::options::ConvertOptions;
use gob_filled_match::Wanted;
use gob_go::{GoItem, GoReader};
use gob_go_writer::GoWriter;
use gob_num::Memory;
use gob_rename::renamed_by;
use gob_stream::{Fault, Input, Limits};
use gob_tool::ToolFault;
use gob_types::{Table, TypeId};
use std::alloc::Global;
use std::io::Read;

/// What values are received as.
#[derive(Drop)]
pub(crate) struct Target {
    /// The wanted types, whose fields have the names of the stream.
    pub(crate) table: Table,
    /// The wanted type.
    pub(crate) id: TypeId,
    /// Whether no field of a value may be left out.
    pub(crate) all: bool,
}

impl Target {
    /// The wanted type, as values are received.
    pub(crate) fn wanted(&self) -> Wanted<'_>
        ensures table { result.table.now ≡ self.now.table }
        ensures id { result.id ≡ self.now.id }
    {
        Wanted {
            table: &self.table,
            id: self.id,
        }
    }
}

/// What is written in front of the first value.
pub(crate) struct Front {
    writer: GoWriter,
    bytes: Vec<u8>,
    // The ids of the types that it defines.
    ids: Vec<TypeId>,
}

// Not derived, so that a drop is one call in the proofs of what owns one.
impl Drop for Front {
    fn drop(self) {
        let Front {
            writer: _,
            bytes: _,
            ids: _,
        } = self;
    }
}

impl Front {
    /// Nothing is written yet.
    pub(crate) fn new(alloc: Global, limits: Limits) -> Result<Front, Memory>
        ensures new { IfOk result (IsFront []) }
        ensures limits { IfOk result (λ front. limits_of front.writer ≡ limits) }
    {
        Ok(Front {
            writer: GoWriter::new(alloc, limits)?,
            bytes: Vec::new(alloc),
            ids: Vec::new(alloc),
        })
    }

    /// The bytes.
    pub(crate) fn bytes(&self) -> &[u8]
        ensures { result.now ≡ self.now.bytes.items }
    {
        &self.bytes
    }

    /// The limits of their stream.
    pub(crate) fn limits(&self) -> Limits
        ensures { result ≡ limits_of self.now.writer }
    {
        self.writer.limits()
    }

    /// What has written them.
    pub(crate) fn into_writer(self) -> GoWriter
        ensures { result ≡ self.writer }
    {
        let Front {
            writer,
            bytes: _,
            ids: _,
        } = self;
        writer
    }

    // Puts the definition of a type.
    fn define(&mut self, alloc: Global, id: TypeId, item: &GoItem) -> Result<(), ConvertFault>
        ensures defined { (items : List FilledItem) (described : GoValue) → item.now ≡ GoItem.Define id described
            → IsFront items self.old → OnOk result (IsFront (items ++ defining id (view described) ∷ []) self.new) }
        ensures limits { limits_of self.new.writer ≡ limits_of self.old.writer }
        ensures fault { IfErr result StopsPutting }
    {
        self.writer.put(alloc, item, &mut self.bytes)?;
        self.ids.push(id)?;
        Ok(())
    }
}

/// Reads the whole wanted stream for the type of its first value, puts the definitions in front of that value, and
/// renames the fields of the types that these define.
pub(crate) fn put_wanted<Q: Read>(
    alloc: Global,
    options: &ConvertOptions<'_>,
    wanted: &mut Input<Q>,
    front: &mut Front,
) -> Result<Target, ConvertFault>
    requires { IsFront [] front.old }
    ensures found { (bytes : List ℕ) → Q.remaining (reader_of wanted.old) ≡ Some bytes
        → FindsTarget options.now.renames.now (within_trees (limits_of front.old.writer)) bytes
        (Q.remaining (reader_of wanted.new)) front.new result }
    ensures target { IfOk result (IsTarget front.new) }
    ensures all { IfOk result (λ target. target.all ≡ options.now.all) }
    ensures limits { limits_of front.new.writer ≡ limits_of front.old.writer }
    ensures among { IfErr result (IsAmongRenames (length options.now.renames.now)) }
    ensures stop { IfErr result IsTargetStop }
    ensures reads { CountsWanted (failed_reads wanted.old) (failed_reads wanted.new) result }
{
    let Some(id) = put_front(alloc, wanted, front)? else {
        return Err(ConvertFault::Run(ToolFault::NoWantedType));
    };
    let table = renamed_by(alloc, options.renames, front.writer.table(), &front.ids)?;
    Ok(Target {
        table,
        id,
        all: options.all,
    })
}

// Reads the stream, and puts the definitions in front of its first value. The type of that value, if there is one.
fn put_front<Q: Read>(
    alloc: Global,
    wanted: &mut Input<Q>,
    front: &mut Front,
) -> Result<Option<TypeId>, ConvertFault>
    requires { IsFront [] front.old }
    ensures found { (bytes : List ℕ) → Q.remaining (reader_of wanted.old) ≡ Some bytes
        → FindsFront (within_trees (limits_of front.old.writer)) bytes (Q.remaining (reader_of wanted.new)) front.new
        result }
    ensures some { IfOk result (λ first. IsSomeFront first front.new) }
    ensures limits { limits_of front.new.writer ≡ limits_of front.old.writer }
    ensures fault { IfErr result IsWantedStop }
    ensures reads { CountsWanted (failed_reads wanted.old) (failed_reads wanted.new) result }
{
    let mut reader = GoReader::new(alloc, front.writer.limits())?;
    put_items(alloc, wanted, &mut reader, front)
}

// Reads the items.
fn put_items<Q: Read>(
    alloc: Global,
    wanted: &mut Input<Q>,
    reader: &mut GoReader,
    front: &mut Front,
) -> Result<Option<TypeId>, ConvertFault>
    requires new { HasReadFrom reader.old (Q.remaining (reader_of wanted.old)) (Q.remaining (reader_of wanted.old)) [] }
    requires none { IsFront [] front.old }
    requires limits { limits_of front.old.writer ≡ session_limits (session_of reader.old) }
    ensures found { (bytes : List ℕ) → Q.remaining (reader_of wanted.old) ≡ Some bytes
        → FindsFront (within_trees (session_limits (session_of reader.old))) bytes (Q.remaining (reader_of wanted.new))
        front.new result }
    ensures some { IfOk result (λ first. IsSomeFront first front.new) }
    ensures limits { limits_of front.new.writer ≡ limits_of front.old.writer }
    ensures fault { IfErr result IsWantedStop }
    ensures reads { CountsWanted (failed_reads wanted.old) (failed_reads wanted.new) result }
{
    let mut first = None;
    'items: loop {
        let more = match reader.more(wanted) {
            Ok(more) => more,
            Err(fault) => return Err(of_wanted(fault)),
        };
        if !more {
            return Ok(first);
        }
        first = put_next(alloc, reader, first, front)?;
    }
}

// Takes some of the bytes that wait, and goes on with the item that is whole with them.
fn put_next(
    alloc: Global,
    reader: &mut GoReader,
    first: Option<TypeId>,
    front: &mut Front,
) -> Result<Option<TypeId>, ConvertFault>
    requires { 0 < length (waits_in reader.old) }
    ensures next { (read now : Option (List ℕ)) → FrontSo reader.old read now first front.old
        → FrontNext reader.old reader.new read now front.new result }
    ensures limits { session_limits (session_of reader.new) ≡ session_limits (session_of reader.old) }
    ensures same { limits_of front.new.writer ≡ limits_of front.old.writer }
    ensures fault { IfErr result IsWantedStop }
    ensures unread { (failures : ℕ) → CountsWanted failures failures result }
{
    match reader.step(alloc) {
        Err(fault) => Err(of_wanted(fault)),
        Ok(step) => match step.item {
            None => Ok(first),
            Some(item) => {
                let noted = note(alloc, first, &item, front);
                drop(item);
                noted
            }
        },
    }
}

// A fault of the wanted stream.
fn of_wanted(fault: Fault) -> ConvertFault
    ensures { result ≡ ConvertFault.Run (wanted_fault fault) }
{
    match fault {
        Fault::Refused(refusal) => ConvertFault::Run(ToolFault::Wanted(refusal)),
        Fault::Read => ConvertFault::Run(ToolFault::Read),
        Fault::Memory | Fault::Failed => ConvertFault::Run(ToolFault::Memory),
    }
}

// The type that is known, or else that of the item, if it is a value. Where none is known a definition is put.
fn note(
    alloc: Global,
    known: Option<TypeId>,
    item: &GoItem,
    front: &mut Front,
) -> Result<Option<TypeId>, ConvertFault>
    ensures noted { IfOk result (λ first. (T : Types) (i : FilledItem) → ItemMeans T item.now i
        → NotesItem known first i front.old front.new) }
    ensures limits { limits_of front.new.writer ≡ limits_of front.old.writer }
    ensures fault { IfErr result StopsPutting }
{
    match (known, item) {
        (None, GoItem::Put { id, .. }) => Ok(Some(*id)),
        (None, GoItem::Define { id, .. }) => {
            front.define(alloc, *id, item)?;
            Ok(None)
        }
        (Some(id), _) => Ok(Some(id)),
    }
}
