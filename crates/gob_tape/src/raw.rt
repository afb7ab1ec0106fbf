//! The pool of raw bytes.

ghost use Rattle.std.specs.Prelude.{◌≡◌, ◌+◌, ◌≤◌, length, take, drop};

/// So many bytes of the pool from there; none where they are not all there.
pub(crate) fn raw_bytes(pool: &[u8], start: usize, count: usize) -> &[u8]
    ensures { start + count ≤ length pool.now → result.now ≡ take count (drop start pool.now) }
{
    if start <= pool.len() && count <= pool.len() - start {
        &pool[start..start + count]
    } else {
        &[]
    }
}
