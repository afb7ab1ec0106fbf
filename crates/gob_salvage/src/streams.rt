//! Several encoders' streams one behind another.

ghost use Rattle.std.specs.Prelude.{◌≡◌, ◌≤◌, ◌<◌, ◌+◌, ◌^◌, ◌∷◌, [], ◌++◌, length, drop, List, Option, ℕ, true, None};
ghost use Rattle.std.specs.Prelude.{Some, IfOk, IfSome, OnOk};
ghost use Rattle.gob_stream.specs.Bounds.{within_trees};
ghost use Rattle.gob_stream.specs.Calls.Ends.{writer_of};
ghost use Rattle.gob_filled.specs.Stream.{FilledItem};
ghost use Rattle.gob_go_writer.specs.Calls.Writer.{HasPut, limits_of};
ghost use Rattle.gob_join.specs.Joining.{JoinsWhole};
ghost use Rattle.gob_salvage.specs.declared.later.Later.{Later};
ghost use Rattle.gob_salvage.specs.Joined.{AreTold, BeginsWithAll, BreaksInto, HasJoined, IsFurtherOn};
ghost use Rattle.gob_salvage.specs.Keeping.{IsKeptOf};
ghost use Rattle.gob_salvage.specs.Breaks.{Breaks};
ghost use Rattle.gob_salvage.specs.Streams.{IsSalvaged, moved, moved_gap};

use crate::gap::Gap;
use crate::keeping::{Kept, Salvaged, keep_stream};
use crate::later::Later;
use gob_go_writer::GoWriter;
use gob_join::{JoinFault, join_file};
use gob_num::Memory;
use gob_stream::{Input, Limits, Output};
use std::alloc::Global;

// So many times as many bytes as there are may be looked at in vain, and some more.
const MOST_TIMES: u64 = 64;

const SOME_MORE: u64 = 1 << 27;

/// Keeps what isn't damaged in the bytes, as one stream. Where each item continues what was kept before, these are
/// their own bytes; where another encoder's stream begins, which defines a type in another way, what is kept of both is
/// joined, under ids that don't clash. No value may be deeper than the limits allow, or than 1000.
pub fn salvage(alloc: Global, limits: Limits, bytes: &[u8]) -> Result<Salvaged, Memory>
    requires { length bytes.now ≤ limits.stream }
    ensures { IfOk result (λ kept.
        IsSalvaged (within_trees limits) bytes.now kept.items kept.bytes.items kept.gaps.items) }
{
    let left = (bytes.len() as u64)
        .saturating_mul(MOST_TIMES)
        .saturating_add(SOME_MORE);
    let first = keep_stream(alloc, limits, &[], bytes, left)?;
    if first.later.is_none() {
        return Ok(first.kept);
    }
    match join_streams(alloc, limits, bytes, &first)? {
        Some(all) => Ok(all),
        None => Ok(first.kept),
    }
}

// What is kept of the first streams, joined.
struct Joined {
    writer: GoWriter,
    output: Output<Vec<u8>>,
    gaps: Vec<Gap>,
    // The next stream, if there is one.
    next: Option<Later>,
    // How many bytes may still be looked at in vain.
    left: u64,
}

impl Drop for Joined {
    fn drop(self) {
        let Joined {
            writer: _,
            output: _,
            gaps: _,
            next: _,
            left: _,
        } = self;
    }
}

// Joins what is kept of the first stream with what is kept of those behind it, if one stream takes them all.
fn join_streams(
    alloc: Global,
    limits: Limits,
    bytes: &[u8],
    first: &Kept,
) -> Result<Option<Salvaged>, Memory>
    requires small { length bytes.now ≤ limits.stream }
    requires first { BreaksInto (within_trees limits) bytes.now first.now }
    ensures { IfOk result (λ all. IfSome all (λ kept.
        IsSalvaged (within_trees limits) bytes.now kept.items kept.bytes.items kept.gaps.items)) }
{
    let mut joined = Joined::new(alloc, limits, first.left)?;
    if !joined.take_in(alloc, limits, first, 0)? {
        return Ok(None);
    }
    'streams: for _ in 0..bytes.len() {
        let Some(later) = &joined.next else {
            return joined.into_salvaged(alloc, limits);
        };
        let begin = later.at;
        let next = keep_stream(alloc, limits, &later.front, &bytes[begin..], joined.left)?;
        if !joined.take_in(alloc, limits, &next, begin)? {
            return Ok(None);
        }
    }
    Ok(None)
}

impl Joined {
    // Of no stream yet.
    fn new(alloc: Global, limits: Limits, left: u64) -> Result<Joined, Memory>
        ensures joined { (bytes : List ℕ) → length bytes ≤ limits.stream → length bytes < 2 ^ 64
            → IfOk result (HasJoined (within_trees limits) bytes) }
        ensures next { IfOk result (λ joined. BeginsWithAll joined.next) }
    {
        Ok(Joined {
            writer: GoWriter::new(alloc, limits)?,
            output: Output::new(Vec::new(alloc)),
            gaps: Vec::new(alloc),
            next: Some(Later {
                at: 0,
                front: Vec::new(alloc),
            }),
            left,
        })
    }

    // Takes in what is kept of a stream that begins at this offset. False where it doesn't go into one stream.
    fn take_in(
        &mut self,
        alloc: Global,
        limits: Limits,
        next: &Kept,
        begin: usize,
    ) -> Result<bool, Memory>
        ensures { (bytes : List ℕ) (later : Later) → HasJoined (within_trees limits) bytes self.old
            → self.old.next ≡ Some later → later.at ≡ begin
            → IsKeptOf (within_trees limits) later.front.items (drop begin bytes) next.now
            → IfOk result (λ taken. taken ≡ true → HasJoined (within_trees limits) bytes self.new) }
    {
        let kept = &next.kept.bytes;
        if !take_stream(alloc, limits, kept, &mut self.writer, &mut self.output)? {
            return Ok(false);
        }
        push_moved(&mut self.gaps, told_gaps(next), begin)?;
        self.next = behind(alloc, begin, &next.later)?;
        self.left = next.left;
        Ok(true)
    }

    // All that is kept, if a stream may be so long.
    fn into_salvaged(self, alloc: Global, limits: Limits) -> Result<Option<Salvaged>, Memory>
        ensures { (bytes : List ℕ) → HasJoined (within_trees limits) bytes self → self.next ≡ None
            → Breaks (within_trees limits) bytes
            → IfOk result (λ all. IfSome all (λ kept.
            IsSalvaged (within_trees limits) bytes kept.items kept.bytes.items kept.gaps.items)) }
    {
        let Joined {
            writer: _,
            output,
            gaps,
            next: _,
            left: _,
        } = self;
        let bytes = output.into_inner();
        if bytes.len() as u64 > limits.stream() {
            return Ok(None);
        }
        // Of a stream all is kept: so many items it has.
        let whole = keep_stream(alloc, limits, &[], &bytes, 0)?;
        Ok(Some(Salvaged {
            items: whole.kept.items,
            bytes,
            gaps,
        }))
    }
}

// Takes the values of a stream into what is joined. False where they don't go into one stream.
fn take_stream(
    alloc: Global,
    limits: Limits,
    bytes: &[u8],
    writer: &mut GoWriter,
    output: &mut Output<Vec<u8>>,
) -> Result<bool, Memory>
    ensures joined { (before : List FilledItem) (out : List ℕ) → HasPut writer.old before out
        → IfOk result (λ taken. taken ≡ true → (now : Option (List ℕ)) × JoinsWhole (within_trees limits) bytes.now now
        writer.new before out (Some (writer_of output.old).items) (Some (writer_of output.new).items)) }
    ensures limits { limits_of writer.new ≡ limits_of writer.old }
{
    let mut input = Input::new(bytes);
    match join_file(alloc, &mut input, writer, output, limits) {
        Ok(()) => Ok(true),
        Err(JoinFault::Full(_)) => Ok(false),
        Err(_) => Err(Memory),
    }
}

// The gaps, but for one that is another encoder's stream.
fn told_gaps(next: &Kept) -> &[Gap]
    ensures { AreTold next.now result.now }
{
    let gaps = next.kept.gaps.as_slice();
    match &next.later {
        Some(_) => &gaps[..gaps.len().saturating_sub(1)],
        None => gaps,
    }
}

// Where the stream behind one begins, in the bytes in which that one begins at this offset.
fn behind(alloc: Global, begin: usize, later: &Option<Later>) -> Result<Option<Later>, Memory>
    ensures none { later.now ≡ None → IfOk result (λ next. next ≡ None) }
    ensures some { IfSome later.now (λ more. begin + more.at < 2 ^ 64
        → IfOk result (IsFurtherOn begin more)) }
{
    let Some(more) = later else {
        return Ok(None);
    };
    let mut front = Vec::new(alloc);
    front.extend_from_slice(&more.front)?;
    let at = begin.saturating_add(more.at);
    Ok(Some(Later { at, front }))
}

// Appends gaps of bytes that begin at this offset.
fn push_moved(gaps: &mut Vec<Gap>, more: &[Gap], begin: usize) -> Result<(), Memory>
    ensures { OnOk result (gaps.new.items ≡ gaps.old.items ++ moved begin more.now) }
{
    for gap in more {
        gaps.push(moved_gap(*gap, begin as u64))?;
    }
    Ok(())
}

// The gap, of bytes that begin at this offset.
fn moved_gap(gap: Gap, begin: u64) -> Gap
    ensures { result ≡ moved_gap begin gap }
{
    Gap {
        begin: gap.begin.saturating_add(begin),
        end: gap.end.saturating_add(begin),
        reason: gap.reason,
        place: gap.place.saturating_add(begin),
        is_repeated: gap.is_repeated,
    }
}
