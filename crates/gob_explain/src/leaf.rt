//! The rows of one number, and of raw bytes.

ghost use Rattle.std.specs.Prelude.{◌≡◌, ◌≢◌, ◌+◌, ◌<◌, ◌≤◌, ℕ, List, Some, IfOk, length};
ghost use Rattle.gob_types.specs.declared.id.TypeId.{TypeId};
ghost use Rattle.gob_types.specs.declared.basic.Basic.TheVariants as basics;
ghost use Rattle.gob_types.specs.declared.kind.Kind.TheVariants as kind;
ghost use Rattle.gob_types.specs.declared.kind.Shape.{Shape};
ghost use Rattle.gob_types.specs.Table.{Table, shape_of};
ghost use Rattle.gob_read.specs.Expected.{Allowed, a_number, first_allowed, raw};
ghost use Rattle.gob_explain.specs.Open.{Open};
ghost use Rattle.gob_explain.specs.Walk.{HasRawBytes, opened};
ghost use Rattle.gob_explain.specs.declared.row.PartStep.{PartStep};
ghost use Rattle.gob_explain.specs.Machine.Walking.{AllowsRange, BeginsAt, IsInRange, SpellsOne, Takes, Walks};
ghost use Rattle.gob_explain.specs.Machine.Walking.{WalksNumber, WalksRaw};

use crate::row::{Awaited, Row, RowPart, What};
use crate::sink::RowSink;
use crate::stop::RowStop;
use gob_num::uint_at;
use gob_types::Basic;

// Which numbers are allowed.
#[derive(Clone, Copy)]
pub(crate) struct Numbers {
    pub(crate) least: u64,
    pub(crate) most: u64,
}

impl Numbers {
    // All of 64 bits.
    pub(crate) const ANY: Numbers = Numbers {
        least: 0,
        most: u64::MAX,
    };

    // 0 alone.
    pub(crate) const NONE: Numbers = Numbers { least: 0, most: 0 };

    // This one alone.
    pub(crate) fn only(number: u64) -> Numbers
        ensures least { result.least ≡ number }
        ensures most { result.most ≡ number }
    {
        Numbers {
            least: number,
            most: number,
        }
    }
}

// Tells of the number that comes next in the part, and where it ends.
pub(crate) fn walk_number<O: RowSink>(
    what: What,
    part: RowPart,
    allowed: Numbers,
    body: &[u8],
    at: usize,
    out: &mut O,
) -> Result<(u64, usize), RowStop<O::Fault>>
    ensures most { IfOk result (λ found. found.0 ≤ allowed.most) }
    ensures walks { (T : Table) (opens : List Open) (next : ℕ → List ℕ → List Open) (a : Allowed) (most : ℕ)
        (way : List PartStep) → at ≤ length body.now → Takes T opens (a_number a) what part.id part.depth way next
        → AllowsRange a allowed.least allowed.most
        → WalksNumber O.tells T body.now most opens at (out.old, way) out.new next
        (IsInRange allowed.least allowed.most body.now at) result }
{
    let awaited = Awaited {
        what,
        id: part.id,
        most: allowed.most,
    };
    let Some((number, end)) = uint_at(body, at) else {
        return Err(RowStop::Here(at, awaited));
    };
    if number < allowed.least || number > allowed.most {
        return Err(RowStop::Here(at, awaited));
    }
    out.put(Row {
        what,
        id: part.id,
        depth: part.depth,
        number,
        begin: at,
        end,
    })?;
    Ok((number, end))
}

// Tells of so many raw bytes, and where they end.
pub(crate) fn walk_raw<O: RowSink>(
    part: RowPart,
    count: u64,
    body: &[u8],
    at: usize,
    out: &mut O,
) -> Result<usize, RowStop<O::Fault>>
    ensures { (T : Table) (opens : List Open) (next : ℕ → List ℕ → List Open) (most : ℕ) (way : List PartStep)
        → at ≤ length body.now → 0 < count → Takes T opens (raw count) What.Raw part.id part.depth way next
        → WalksRaw O.tells T body.now most opens at count (out.old, way) out.new next result }
{
    if count > body.len().saturating_sub(at) as u64 {
        return Err(RowStop::Here(
            at,
            Awaited {
                what: What::Raw,
                id: part.id,
                most: count,
            },
        ));
    }
    let end = at + count as usize;
    out.put(Row {
        what: What::Raw,
        id: part.id,
        depth: part.depth,
        number: count,
        begin: at,
        end,
    })?;
    Ok(end)
}

// Tells of a count of raw bytes and of those, and where they end.
pub(crate) fn walk_counted<O: RowSink>(
    part: RowPart,
    body: &[u8],
    at: usize,
    out: &mut O,
) -> Result<usize, RowStop<O::Fault>>
    ensures { (T : Table) (t : TypeId) (s : Shape) (base around most : ℕ) (p : List ℕ) (outer : List Open)
        (way : List PartStep) → base + around + 1 ≡ part.depth → at ≤ length body.now
        → BeginsAt T t base p outer part.id around way → shape_of T part.id ≡ Some s → HasRawBytes s.kind
        → Walks O.tells T body.now most t base p outer at (out.old, way) out.new (SpellsOne T part.id) result }
{
    let (count, behind) = walk_number(What::First, part, Numbers::ANY, body, at, out)?;
    if count == 0 {
        return Ok(behind);
    }
    walk_raw(part, count, body, behind, out)
}

// Tells of a basic value that is no interface, and where it ends.
pub(crate) fn walk_basic<O: RowSink>(
    part: RowPart,
    basic: Basic,
    body: &[u8],
    at: usize,
    out: &mut O,
) -> Result<usize, RowStop<O::Fault>>
    ensures { (T : Table) (t : TypeId) (s : Shape) (base around most : ℕ) (p : List ℕ) (outer : List Open)
        (way : List PartStep) → base + around + 1 ≡ part.depth → at ≤ length body.now
        → BeginsAt T t base p outer part.id around way → shape_of T part.id ≡ Some s → s.kind ≡ kind.Basic basic
        → basic ≢ basics.Interface
        → Walks O.tells T body.now most t base p outer at (out.old, way) out.new (SpellsOne T part.id) result }
{
    match basic {
        Basic::Bytes => walk_counted(part, body, at, out),
        Basic::Str => walk_counted(part, body, at, out),
        Basic::Complex => walk_complex(part, body, at, out),
        _ => {
            let (_, end) = walk_number(What::First, part, allowed_of(basic), body, at, out)?;
            Ok(end)
        }
    }
}

// Tells of a complex number, and where it ends.
fn walk_complex<O: RowSink>(
    part: RowPart,
    body: &[u8],
    at: usize,
    out: &mut O,
) -> Result<usize, RowStop<O::Fault>>
    ensures { (T : Table) (t : TypeId) (s : Shape) (base around most : ℕ) (p : List ℕ) (outer : List Open)
        (way : List PartStep) → base + around + 1 ≡ part.depth → at ≤ length body.now
        → BeginsAt T t base p outer part.id around way → shape_of T part.id ≡ Some s
        → s.kind ≡ kind.Basic basics.Complex
        → Walks O.tells T body.now most t base p outer at (out.old, way) out.new (SpellsOne T part.id) result }
{
    let (_, behind) = walk_number(What::First, part, Numbers::ANY, body, at, out)?;
    let (_, end) = walk_number(What::Imaginary, part, Numbers::ANY, body, behind, out)?;
    Ok(end)
}

// Which numbers a value of the basic type begins with, where an interface may hold something.
fn allowed_of(basic: Basic) -> Numbers
    ensures { AllowsRange (opened (first_allowed (kind.Basic basic))) result.least result.most }
{
    match basic {
        Basic::Bool => Numbers { least: 0, most: 1 },
        _ => Numbers::ANY,
    }
}
