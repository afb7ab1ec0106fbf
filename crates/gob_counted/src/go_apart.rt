//! The session of streams of Go's encoder, as a counter asks it.

use crate::apart::TellsApart;
use gob_go::{GoItem, GoSession};

impl TellsApart for GoSession {
    fn is_value(item: &GoItem) -> bool {
        match item {
            GoItem::Define { .. } => false,
            GoItem::Put { .. } => true,
        }
    }
}
