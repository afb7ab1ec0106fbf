//! The nodes and the bytes that are given.

ghost use Rattle.std.specs.Prelude.{◌≡◌, ◌+◌, ◌<◌, ◌^◌, Some, IfOk, IfErr, OnOk, slice_get, length};
ghost use Rattle.gob_tape.specs.declared.flat.FlatNode.{FlatNode as Node};
ghost use Rattle.gob_nodes.specs.Nodes.{HasBytes, bytes_of};

use crate::fault::NodesFault;
use gob_tape::FlatNode;

// The kinds of nodes that have bytes or parts, of arrays and types in definitions, and of interfaces that hold a value.
pub(crate) const BYTES: u16 = 5;

pub(crate) const TEXT: u16 = 6;

pub(crate) const LIST: u16 = 9;

pub(crate) const MAP: u16 = 10;

pub(crate) const STRUCT: u16 = 11;

pub(crate) const OPAQUE: u16 = 12;

pub(crate) const ARRAY: u16 = 13;

pub(crate) const TYPE: u16 = 14;

pub(crate) const HELD: u16 = 15;

/// The nodes of an item, and the bytes in which its names, its byte strings and its texts stand.
#[derive(Clone, Copy)]
pub struct Nodes<'a> {
    /// The nodes.
    pub nodes: &'a [FlatNode],
    /// The bytes.
    pub bytes: &'a [u8],
}

impl<'a> Nodes<'a> {
    /// The node at the place.
    pub(crate) fn node(&self, at: usize) -> Result<FlatNode, NodesFault>
        ensures there { IfOk result (λ node. slice_get self.now.nodes.now at ≡ Some node) }
        ensures below { IfOk result (λ node. at < length self.now.nodes.now) }
        ensures small { OnOk result (at + 1 < 2 ^ 64) }
        ensures none { IfErr result (λ f. (n : Node) → slice_get self.now.nodes.now at ≡ Some n → ⊥) }
    {
        match self.nodes.get(at) {
            Some(node) => Ok(*node),
            None => Err(NodesFault::Wrong(at)),
        }
    }

    /// The node at the place, which is of the kind.
    pub(crate) fn node_of(&self, at: usize, kind: u16) -> Result<FlatNode, NodesFault>
        ensures there { IfOk result (λ node. slice_get self.now.nodes.now at ≡ Some node) }
        ensures below { IfOk result (λ node. at < length self.now.nodes.now) }
        ensures small { OnOk result (at + 1 < 2 ^ 64) }
        ensures kind { IfOk result (λ node. node.kind ≡ kind) }
        ensures none { IfErr result (λ f. (n : Node) → slice_get self.now.nodes.now at ≡ Some n → n.kind ≡ kind → ⊥) }
    {
        let node = self.node(at)?;
        if node.kind != kind {
            return Err(NodesFault::Wrong(at));
        }
        Ok(node)
    }

    /// The bytes of which a node at the place says where they stand.
    pub(crate) fn bytes_of(&self, at: usize, node: FlatNode) -> Result<&'a [u8], NodesFault>
        ensures has { IfOk result (λ bytes. HasBytes self.now.bytes.now node) }
        ensures are { IfOk result (λ bytes. bytes.now ≡ bytes_of self.now.bytes.now node) }
        ensures none { IfErr result (λ fault. ¬ HasBytes self.now.bytes.now node) }
    {
        let size = self.bytes.len() as u64;
        if node.first > size || node.second > size - node.first {
            return Err(NodesFault::Wrong(at));
        }
        let first = node.first as usize;
        Ok(&self.bytes[first..first + node.second as usize])
    }
}
