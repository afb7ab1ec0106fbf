//! How many bytes nodes say.

ghost use Rattle.std.specs.Prelude.{◌≡◌, ◌-◌, ◌^◌, min};
ghost use Rattle.gob_nodes.specs.Size.{bytes_size, node_size};

use crate::nodes::{BYTES, OPAQUE, TEXT};
use gob_tape::FlatNode;

/// How many bytes the nodes say that stand in the bytes of their item, or of a definition how many its names have: the
/// greatest number where they are more. Since bytes may stand in several parts, these may be more than are given.
pub fn size_of_bytes(nodes: &[FlatNode], defines: bool) -> u64
    ensures { result ≡ min (bytes_size defines nodes.now) (2 ^ 64 - 1) }
{
    let mut size = 0u64;
    let mut left = nodes;
    'nodes: while let [node, rest @ ..] = left {
        size = size.saturating_add(size_of(*node, defines));
        left = rest;
    }
    size
}

// Of one node.
fn size_of(node: FlatNode, defines: bool) -> u64
    ensures { result ≡ node_size defines node }
{
    if defines || node.kind == BYTES || node.kind == TEXT || node.kind == OPAQUE {
        return node.second;
    }
    0
}
