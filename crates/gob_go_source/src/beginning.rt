//! How source begins.

ghost use Rattle.std.specs.Prelude.{◌≡◌};
ghost use Rattle.gob_go_source.specs.Beginning.{begins_as_source, behind_space, is_space, starts_source};

/// Whether a text begins as source does: behind white space with a comment, or with a keyword that begins a
/// declaration. No stream that Go's encoder writes begins so.
pub fn begins_as_source(text: &[u8]) -> bool
    ensures { result ≡ begins_as_source text.now }
{
    starts_source(behind_space(text))
}

// Whether a comment stands first, or a keyword that begins a declaration.
fn starts_source(text: &[u8]) -> bool
    ensures { result ≡ starts_source text.now }
{
    text.starts_with(b"package")
        || text.starts_with(b"import")
        || text.starts_with(b"type")
        || text.starts_with(b"func")
        || text.starts_with(b"//")
        || text.starts_with(b"/*")
}

// The text from its first byte on that is no white space.
fn behind_space(text: &[u8]) -> &[u8]
    ensures { result.now ≡ behind_space text.now }
{
    let mut left = text;
    while let [first, rest @ ..] = left {
        if !is_space(*first) {
            return left;
        }
        left = rest;
    }
    left
}

fn is_space(byte: u8) -> bool
    ensures { result ≡ is_space byte }
{
    byte == b' ' || byte == b'\t' || byte == b'\n' || byte == b'\r'
}
