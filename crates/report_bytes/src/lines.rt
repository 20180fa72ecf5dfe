// Bytes cut into lines, from the first one on.
ghost use Rattle.std.specs.Prelude.{◌≡◌, ◌≤◌, ◌<◌, ◌∷◌, [], length, IfNone, IfSome, ◌==◌};
ghost use Rattle.std.specs.List.{position_or_len};
ghost use Rattle.report_bytes.specs.Bytes.{pieces};

use memchr::memchr;

// The number of bytes before the first line feed, or of all bytes.
fn line_len(bytes: &[u8]) -> usize
    ensures len { result ≡ position_or_len (λ b. b == 10) bytes.now }
    ensures within { result ≤ length bytes.now }
{
    match memchr(b'\n', bytes) {
        Some(place) => place,
        None => bytes.len(),
    }
}

/// The first line, and the bytes behind its line feed; none where no line feed ends a line.
#[inline(always)]
pub fn next_line(bytes: &[u8]) -> Option<(&[u8], &[u8])>
    ensures some { IfSome result (λ x. pieces bytes.now ≡ x.0.now ∷ pieces x.1.now) }
    ensures fewer { IfSome result (λ x. length x.1.now < length bytes.now) }
    ensures none { IfNone result (pieces bytes.now ≡ bytes.now ∷ []) }
{
    let len = line_len(bytes);
    if len == bytes.len() {
        return None;
    }
    Some((&bytes[..len], &bytes[len + 1..]))
}
