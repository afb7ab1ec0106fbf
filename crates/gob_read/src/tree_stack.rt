//! What is under way of a value that is built.

ghost use Rattle.std.specs.Prelude.{◌≡◌, OnOk, Some};
ghost use Rattle.gob_value.specs.Tree.{Tree};
ghost use Rattle.gob_value.specs.View.{view};
ghost use Rattle.gob_read.specs.Machine.Built as built;
ghost use Rattle.gob_read.specs.Machine.Stack.{part_view, work_of};

use crate::tree_part::TreePart;
use gob_num::Memory;
use gob_value::Value;
use std::alloc::Global;

/// The open parts, innermost last, and the whole value once it is there.
pub(crate) struct TreeStack {
    parts: Vec<TreePart>,
    whole: Option<Value>,
}

// Not derived, so that a drop is one call in the proofs of what owns one.
impl Drop for TreeStack {
    fn drop(self) {
        let TreeStack { parts: _, whole: _ } = self;
    }
}

impl TreeStack {
    /// Nothing yet.
    pub(crate) fn new(alloc: Global) -> TreeStack
        ensures { work_of result ≡ built.no_work }
    {
        TreeStack {
            parts: Vec::new(alloc),
            whole: None,
        }
    }

    /// A part begins.
    pub(crate) fn begin(&mut self, part: TreePart) -> Result<(), Memory>
        ensures { OnOk result (work_of self.new ≡ built.begun (work_of self.old) (part_view part)) }
    {
        self.parts.push(part)?;
        Ok(())
    }

    /// Puts a whole part into the innermost open one. With none open it is the whole value.
    pub(crate) fn put(&mut self, value: Value) -> Result<(), Memory>
        ensures { OnOk result (work_of self.new ≡ built.put (work_of self.old) (view value)) }
    {
        match self.parts.last_mut() {
            None => self.whole = Some(value),
            Some(part) => part.add(value)?,
        }
        Ok(())
    }

    /// Adds raw bytes to the innermost open part.
    pub(crate) fn add_bytes(&mut self, bytes: &[u8]) -> Result<(), Memory>
        ensures { OnOk result (work_of self.new ≡ built.extended (work_of self.old) bytes.now) }
    {
        if let Some(part) = self.parts.last_mut() {
            part.add_bytes(bytes)?;
        }
        Ok(())
    }

    /// Takes the number of the next part of the innermost open one.
    pub(crate) fn name(&mut self, number: u64)
        ensures { work_of self.new ≡ built.numbered (work_of self.old) number }
    {
        if let Some(part) = self.parts.last_mut() {
            part.name(number);
        }
    }

    /// The innermost open part ends.
    pub(crate) fn leave(&mut self) -> Result<(), Memory>
        ensures { OnOk result (work_of self.new ≡ built.left_work (work_of self.old)) }
    {
        if let Some(part) = self.parts.pop() {
            self.put(part.close())?;
        }
        Ok(())
    }

    /// The whole value.
    pub(crate) fn into_value(self) -> Value
        ensures { (v : Tree) → (work_of self).whole ≡ Some v → view result ≡ v }
    {
        let TreeStack { parts: _, whole } = self;
        whole.unwrap_or(Value::Nil)
    }
}
