//! Bytes read another way: whether they would be a stream then.

use crate::alike::are_alike;
use gob_go::{GoItem, GoSession};
use gob_num::Memory;
use gob_read::{BodyReader, Progress, SkipBuilder, Stop};
use gob_stream::{Fault, Limits};
use gob_types::{Shape, Shapes, Table, TypeId};
use std::alloc::Global;

/// How far bytes are a stream.
#[derive(Clone, Copy, Debug, PartialEq, Eq)]
pub(crate) struct Trial {
    /// How many items are whole.
    pub(crate) items: u64,
    /// Where the last of them ends.
    pub(crate) end: usize,
    /// Whether the first of them defines a type.
    pub(crate) defines: bool,
    /// Whether one of them is a value.
    pub(crate) has_value: bool,
    /// Whether what follows is refused, for another reason than that it ends.
    pub(crate) is_refused: bool,
}

impl Trial {
    // Nothing was read.
    const NONE: Trial = Trial {
        items: 0,
        end: 0,
        defines: false,
        has_value: false,
        is_refused: false,
    };

    /// Whether the bytes are the front of a stream, with an item at least.
    pub(crate) fn is_front(&self) -> bool {
        self.items > 0 && !self.is_refused
    }

    /// Whether a stream begins as they do: with a definition, and behind it a value or the end.
    pub(crate) fn begins(&self) -> bool {
        self.defines && (self.has_value || !self.is_refused)
    }

    // Counts an item that ends here, if there is one.
    fn count(&mut self, item: &Option<GoItem>, end: usize) {
        let Some(item) = item else {
            return;
        };
        let defines = matches!(item, GoItem::Define { .. });
        if self.items == 0 {
            self.defines = defines;
        }
        self.has_value = self.has_value || !defines;
        self.items = self.items.saturating_add(1);
        self.end = end;
    }
}

/// Reads the bytes as a stream of their own.
pub(crate) fn tried(alloc: Global, bytes: &[u8], limits: Limits) -> Result<Trial, Memory> {
    let mut session = GoSession::new(alloc, limits)?;
    read_through(alloc, &mut session, bytes)
}

fn read_through(alloc: Global, session: &mut GoSession, bytes: &[u8]) -> Result<Trial, Memory> {
    let mut trial = Trial::NONE;
    let mut used = 0;
    'steps: while used < bytes.len() {
        match session.step(alloc, &bytes[used..]) {
            Ok(step) => {
                used += step.used;
                trial.count(&step.item, used);
                drop(step);
            }
            Err(Fault::Memory) => return Err(Memory),
            Err(_) => {
                trial.is_refused = true;
                return Ok(trial);
            }
        }
    }
    Ok(trial)
}

/// Whether the bytes define the type as one of this shape. None: they don't begin with a whole definition of it.
pub(crate) fn defines_alike(
    alloc: Global,
    bytes: &[u8],
    id: TypeId,
    shape: &Shape,
    limits: Limits,
) -> Result<Option<bool>, Memory> {
    let mut session = GoSession::new(alloc, limits)?;
    let trial = read_through(alloc, &mut session, bytes)?;
    match session.table().shape_of(id) {
        Some(other) if trial.defines => Ok(Some(are_alike(shape, other))),
        _ => Ok(None),
    }
}

/// Whether the body is a value of the type in which no interface holds another, and none of whose parts is deeper than
/// `depth`.
pub(crate) fn is_value(
    alloc: Global,
    table: &Table,
    id: TypeId,
    body: &[u8],
    depth: u64,
) -> Result<bool, Memory> {
    if !table.kept(id) {
        return Ok(false);
    }
    let mut reader = BodyReader::<SkipBuilder>::new(alloc, id, body.len() as u64, depth)?;
    match reader.push(alloc, table, body) {
        Ok(Progress::Done { .. }) => Ok(true),
        Err(Stop::Memory) => Err(Memory),
        _ => Ok(false),
    }
}

/// The depth of the value that the body is, where it is one no deeper than `most`.
pub(crate) fn depth_of(
    alloc: Global,
    table: &Table,
    id: TypeId,
    body: &[u8],
    most: u64,
) -> Result<Option<u64>, Memory> {
    if !is_value(alloc, table, id, body, most)? {
        return Ok(None);
    }
    let mut low = 0;
    let mut high = most;
    'halves: for _ in 0..64 {
        let half = high.saturating_sub(low) / 2;
        if half > 0 {
            let middle = low.saturating_add(half);
            if is_value(alloc, table, id, body, middle)? {
                high = middle;
            } else {
                low = middle;
            }
        }
    }
    Ok(Some(high))
}
