//! The flat nodes of tapes.

use crate::views::is_text;
use gob_tape::{FlatNode, Tape};

/// What, its type, the body, the words of its nodes (number, first, second, kind, named), and its pool.
pub(crate) const ROWS: &str = "
an int | 2 | 00 06 | 0 6 0 2 0 | -
a text | 6 | 00 05 68 65 6c 6c 6f | 0 0 5 6 0 | hello
X 22, Y 33 | 65 | 01 2c 01 42 00 | 0 2 3 11 0 0 44 0 2 1 1 66 0 2 1 | -
a map with a key twice | 69 | 00 02 01 61 02 01 61 04 | 0 2 5 10 0 0 0 1 6 0 0 2 0 2 0 0 1 1 6 0 0 4 0 2 0 | aa
a field of each kind | 74 | 01 01 01 06 01 07 01 fe 31 40 01 01 41 01 02 68 69 01 fe f0 3f 40 01 00 01 01 00 01 01 01 \
    61 02 01 01 42 01 02 01 00 00 | 0 12 17 11 0 0 1 0 1 1 1 6 0 2 1 2 7 0 3 1 3 4625478292286210048 0 4 1 4 0 1 5 1 \
    5 1 2 6 1 6 4607182418800017408 4611686018427387904 7 1 7 0 0 8 1 8 1 2 9 1 0 0 1 9 0 9 1 3 10 1 0 3 1 6 0 0 2 0 \
    2 0 10 4 1 12 1 11 1 2 11 1 1 1 0 2 1 | AhiaB
";

const NO_NODE: FlatNode = FlatNode {
    first: 7,
    second: 7,
    number: 7,
    kind: 7,
    named: 7,
};

/// Whether the tape has these words and this pool.
pub(crate) fn is_flat(tape: Tape, due: &[u64], pool: &str) -> bool {
    let mut room = [NO_NODE; 20];
    let count = tape.node_count();
    let has_pool = is_text(tape.pool(), pool);
    if count >= room.len() {
        return false;
    }
    tape.move_flat(&mut room);
    has_pool && is_left(room.get(count)) && are_nodes(&room, count, due)
}

// Whether the node was left as it was.
fn is_left(node: Option<&FlatNode>) -> bool {
    match node {
        Some(node) => node.kind == 7 && node.named == 7,
        None => false,
    }
}

// Whether so many nodes have these words.
fn are_nodes(room: &[FlatNode], count: usize, due: &[u64]) -> bool {
    let mut left = count;
    for (node, words) in room.iter().zip(due.chunks(5)) {
        if !has_words(node, words) {
            return false;
        }
        left = left.saturating_sub(1);
    }
    left == 0 && due.len() / 5 == count
}

fn has_words(node: &FlatNode, words: &[u64]) -> bool {
    words
        == [
            u64::from(node.number),
            node.first,
            node.second,
            u64::from(node.kind),
            u64::from(node.named),
        ]
        .as_slice()
}
