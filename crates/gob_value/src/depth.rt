//! How deep a value is.

ghost use Rattle.std.specs.Prelude.{◌↔◌, ◌≤◌, IsTrue};
ghost use Rattle.gob_value.specs.View.{view, views, pair_views, field_views};
ghost use Rattle.gob_value.specs.Tree.{depth, trees_depth, pairs_depth, fields_depth};

use crate::value::Value;

/// Whether the value's depth is at most this. Looks no deeper than that.
#[cycle(within)]
pub(crate) fn is_within(value: &Value, limit: u64) -> bool
    requires { limit ≤ 1000 }
    ensures { IsTrue result ↔ (depth (view value.now) ≤ limit) }
{
    if limit == 0 {
        return false;
    }
    match value {
        Value::Many(parts) => are_within(parts, limit - 1),
        Value::Pairs(parts) => pairs_within(parts, limit - 1),
        Value::Fields(parts) => fields_within(parts, limit - 1),
        _ => true,
    }
}

#[cycle(within)]
fn are_within(parts: &[Value], limit: u64) -> bool
    requires { limit ≤ 1000 }
    ensures { IsTrue result ↔ (trees_depth (views parts.now) ≤ limit) }
{
    for part in parts {
        if !is_within(part, limit) {
            return false;
        }
    }
    true
}

#[cycle(within)]
fn pairs_within(parts: &[(Value, Value)], limit: u64) -> bool
    requires { limit ≤ 1000 }
    ensures { IsTrue result ↔ (pairs_depth (pair_views parts.now) ≤ limit) }
{
    for (key, elem) in parts {
        if !is_within(key, limit) {
            return false;
        }
        if !is_within(elem, limit) {
            return false;
        }
    }
    true
}

#[cycle(within)]
fn fields_within(parts: &[(u64, Value)], limit: u64) -> bool
    requires { limit ≤ 1000 }
    ensures { IsTrue result ↔ (fields_depth (field_views parts.now) ≤ limit) }
{
    for (_, part) in parts {
        if !is_within(part, limit) {
            return false;
        }
    }
    true
}
