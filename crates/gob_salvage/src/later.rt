//! Where another encoder's stream begins.

ghost use Rattle.std.specs.Prelude.{◌≡◌, ◌≤◌, drop, length, true, IfOk, IfSome, IsTrue};
ghost use Rattle.gob_types.specs.Defined.{types};
ghost use Rattle.gob_stream.specs.Bounds.{within_trees};
ghost use Rattle.gob_salvage.specs.Fronts.{AreDefined, StandsBehind};
ghost use Rattle.gob_salvage.specs.Searching.{HasSpent};
ghost use Rattle.gob_salvage.specs.Begins.{BeginsAt, BeginsBehindThese};
ghost use Rattle.gob_salvage.specs.declared.later.Standing.TheVariants as standing;

use crate::again::read_again;
use crate::frame::frame_at;
use crate::front::{definitions_of, without};
use crate::item::take_item;
use crate::search::Search;
use gob_go::GoSession;
use gob_num::Memory;
use gob_stream::{Fault, Limits};
use gob_types::{Reason, Shapes, Table, TypeId};
use indexmap::IndexSet;
use std::alloc::Global;

// So many definitions show by themselves that another encoder's stream begins.
const FEW: u64 = 2;

/// Another encoder's stream.
#[derive(Drop)]
pub(crate) struct Later {
    /// Where it begins.
    pub at: usize,
    /// The definitions that are in force there, but those of the ids that it defines: a stream.
    pub front: Vec<u8>,
}

/// An item that is refused since it defines a type that is defined.
#[derive(Clone, Copy)]
pub(crate) struct Clash {
    /// Where the item begins.
    pub at: usize,
    pub id: TypeId,
}

// What an encoder sends at once: definitions, and a value behind them.
struct Group {
    // The ids that these define.
    ids: IndexSet<u64>,
    // How many definitions stand in front of the value.
    definitions: u64,
    // The type of the value, if one stands there.
    value: Option<TypeId>,
}

impl Drop for Group {
    fn drop(self) {
        let Group {
            ids: _,
            definitions: _,
            value: _,
        } = self;
    }
}

// Whether a group stands behind a front.
#[derive(Clone, Copy)]
enum Standing {
    Stands,
    // It defines a type that the front defines.
    Clashes(TypeId),
    Falls,
}

/// Finds another encoder's stream, if an item of it is refused since it defines a type again. It begins with this item,
/// behind the definitions in force but those of ids that it defines, or that items do which were sent with it. It is
/// seen by these items: they stand there, and the value that they end with needs the definitions.
pub(crate) fn later_stream(
    alloc: Global,
    search: &mut Search,
    defining: &[u8],
    bytes: &[u8],
    clash: Option<Clash>,
) -> Result<Option<Later>, Memory>
    requires { IfSome clash (λ clash. clash.at ≤ length bytes.now) }
    ensures spent { HasSpent search.old search.new }
    ensures place { IfOk result (λ later. IfSome later (BeginsAt clash)) }
    ensures anew { IfOk result (λ later. IfSome later (λ later. BeginsBehindThese (within_trees search.old.limits)
        defining.now later.front.items (drop later.at bytes.now))) }
{
    let later = match clash {
        Some(clash) if clash.at > 0 && !search.is_spent() => {
            find_later(alloc, search, defining, bytes, clash)?
        }
        _ => None,
    };
    if later.is_none() {
        search.spend_definitions(defining.len());
    }
    Ok(later)
}

// Finds it by an item that is refused so.
fn find_later(
    alloc: Global,
    search: &mut Search,
    defining: &[u8],
    bytes: &[u8],
    clash: Clash,
) -> Result<Option<Later>, Memory>
    requires { clash.at ≤ length bytes.now }
    ensures spent { HasSpent search.old search.new }
    ensures place { IfOk result (λ later. IfSome later (λ later. later.at ≡ clash.at)) }
    ensures anew { IfOk result (λ later. IfSome later (λ later. BeginsBehindThese (within_trees search.old.limits)
        defining.now later.front.items (drop later.at bytes.now))) }
{
    let limits = search.limits();
    let definitions = definitions_of(alloc, limits, defining)?;
    let piece = &bytes[clash.at..];
    let mut group = group_at(alloc, &limits, piece)?;
    group.ids.insert(clash.id.0)?;
    'ids: for _ in 0..definitions.len() {
        let front = without(alloc, &limits, &definitions, &group.ids)?;
        search.spend_definitions(front.len());
        match stands_behind(alloc, limits, &front, piece, &group)? {
            Standing::Stands => {
                let at = clash.at;
                return Ok(Some(Later { at, front }));
            }
            Standing::Clashes(id) if !group.ids.contains(&id.0) && !search.is_spent() => {
                group.ids.insert(id.0)?;
            }
            _ => break,
        }
    }
    search.spend_session(group.definitions);
    Ok(None)
}

// What may be a group at the front of the piece.
fn group_at(alloc: Global, limits: &Limits, piece: &[u8]) -> Result<Group, Memory> {
    let mut group = Group {
        ids: IndexSet::new(alloc),
        definitions: 0,
        value: None,
    };
    let mut at = 0;
    'definitions: for definitions in 0..limits.types() {
        group.definitions = definitions;
        let Some(frame) = frame_at(limits, piece, at) else {
            return Ok(group);
        };
        if frame.number >= 0 {
            group.value = Some(TypeId(frame.number as u64));
            return Ok(group);
        }
        group.ids.insert(frame.number.unsigned_abs())?;
        at = frame.end;
    }
    Ok(group)
}

// Whether the group that the piece begins with stands behind the front.
fn stands_behind(
    alloc: Global,
    limits: Limits,
    front: &[u8],
    piece: &[u8],
    group: &Group,
) -> Result<Standing, Memory>
    ensures { IfOk result (λ answer. answer ≡ standing.Stands
        → StandsBehind (within_trees limits) front.now piece.now group.now.ids.keys) }
{
    if (front.len() + piece.len()) as u64 > limits.stream() {
        return Ok(Standing::Falls);
    }
    let mut session = read_again(alloc, limits, front)?;
    let is_known = is_known(&session, group.value);
    let mut at = 0;
    'definitions: for _ in 0..group.definitions {
        match take_item(alloc, &mut session, &piece[at..]) {
            Ok(used) => at += used,
            Err(Fault::Refused(refusal)) => return Ok(standing_of(refusal.reason, false)),
            Err(_) => return Err(Memory),
        }
    }
    let is_enough = are_enough(session.table(), group);
    if group.value.is_none() {
        return Ok(stands_if(is_enough));
    }
    match take_item(alloc, &mut session, &piece[at..]) {
        Ok(_) => {
            let is_whole = are_defined(session.table(), group.ids.as_slice());
            let is_needed = group.definitions == 0
                || !is_known
                || !stands_alone(alloc, limits, front, &piece[at..])?;
            Ok(stands_if(is_whole && is_needed))
        }
        Err(Fault::Refused(refusal)) => Ok(standing_of(refusal.reason, is_enough)),
        Err(_) => Err(Memory),
    }
}

fn is_known(session: &GoSession, value: Option<TypeId>) -> bool {
    match value {
        Some(id) => session.table().kept(id),
        None => false,
    }
}

// Whether the definitions of the group, which were read, show it by themselves.
fn are_enough(table: &Table, group: &Group) -> bool
    ensures some { IsTrue result → 2 ≤ group.now.definitions }
    ensures all { IsTrue result → AreDefined (types table.now) group.now.ids.keys }
{
    group.definitions >= FEW && are_defined(table, group.ids.as_slice())
}

// Whether each of the ids has a type.
fn are_defined(table: &Table, ids: &[u64]) -> bool
    ensures { IsTrue result → AreDefined (types table.now) ids.now }
{
    for id in ids {
        if table.shape_of(TypeId(*id)).is_none() {
            return false;
        }
    }
    true
}

// Whether an item stands at the front of the piece behind the front alone.
fn stands_alone(alloc: Global, limits: Limits, front: &[u8], piece: &[u8]) -> Result<bool, Memory> {
    let mut session = read_again(alloc, limits, front)?;
    match take_item(alloc, &mut session, piece) {
        Ok(_) => Ok(true),
        Err(Fault::Refused(_)) => Ok(false),
        Err(_) => Err(Memory),
    }
}

fn stands_if(is_enough: bool) -> Standing
    ensures { result ≡ standing.Stands → is_enough ≡ true }
{
    if is_enough {
        Standing::Stands
    } else {
        Standing::Falls
    }
}

// What a group is, an item of which is refused so.
fn standing_of(reason: Reason, is_enough: bool) -> Standing
    ensures { result ≡ standing.Stands → is_enough ≡ true }
{
    match reason {
        Reason::DefinedTwice(id) => Standing::Clashes(id),
        _ => stands_if(is_enough),
    }
}
