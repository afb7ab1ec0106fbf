//! The session of the format, as a counter asks it.

use crate::apart::TellsApart;
use gob_read::Builder;
use gob_stream::{Item, Session};

impl<B: Builder> TellsApart for Session<B> {
    fn is_value(item: &Item<B::Out>) -> bool {
        match item {
            Item::Define { .. } => false,
            Item::Put { .. } => true,
        }
    }
}
