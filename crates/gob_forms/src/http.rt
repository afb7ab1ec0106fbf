//! The head of a message of HTTP/1.

ghost use Rattle.std.specs.Prelude.{◌≡◌, ◌≤◌, ℕ, length, None, IfSome};
ghost use Rattle.gob_forms.specs.Texts.{IsHttpHead, StandsFirst, ends_request};

// What ends the lines of a head, and the head.
const LINE: &[u8] = b"\r\n";

const END: &[u8] = b"\r\n\r\n";

// The most bytes of a head.
const MOST: usize = 65536;

/// How many bytes the head of an answer or of a request has that the bytes begin with, where it stands whole there.
pub fn http_head(front: &[u8]) -> Option<usize>
    ensures found { IfSome result (λ size. IsHttpHead front.now size) }
    ensures none { result ≡ None → (size : ℕ) → ¬ IsHttpHead front.now size }
{
    let line = &front[..place_of(front, LINE)?];
    if !line.starts_with(b"HTTP/1.") && !ends_request(line) {
        return None;
    }
    Some(place_of(front, END)? + END.len())
}

// Whether the line ends as that of a request.
fn ends_request(line: &[u8]) -> bool
    ensures { result ≡ ends_request line.now }
{
    line.ends_with(b" HTTP/1.1") || line.ends_with(b" HTTP/1.0")
}

// Where this stands first.
fn place_of(bytes: &[u8], what: &[u8]) -> Option<usize>
    ensures within { IfSome result (λ place. place ≤ length bytes.now) }
    ensures first { IfSome result (λ place. StandsFirst what.now bytes.now place) }
    ensures none { result ≡ None → (place : ℕ) → ¬ StandsFirst what.now bytes.now place }
{
    for place in 0..bytes.len().min(MOST) {
        if bytes[place..].starts_with(what) {
            return Some(place);
        }
    }
    None
}
