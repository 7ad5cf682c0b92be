//! The tokens of a line, one after the other.

ghost use Rattle.std.specs.Prelude.{◌≡◌, ◌<◌, ◌≤◌, ℕ, Bool, true, false, List, [], ◌∷◌, length, take, All, IfNone, IfSome, slice_index};
ghost use Rattle.lj_text.specs.Bytes.{is_blank, tokens_of};
ghost use Rattle.lj_text.specs.inner.Bytes.{begins_blank};

/// Whether a byte is a space, a tab or a carriage return.
#[inline(always)]
pub(super) fn is_blank(byte: u8) -> bool
    ensures { result ≡ is_blank byte }
{
    byte == b' ' || byte == b'\t' || byte == b'\r'
}

/// What follows the blanks at the front. Takes time linear in the blanks.
#[inline(always)]
pub(crate) fn after_blanks(bytes: &[u8]) -> &[u8]
    ensures tokens { tokens_of result.now ≡ tokens_of bytes.now }
    ensures front { begins_blank result.now ≡ false }
    ensures len { length result.now ≤ length bytes.now }
{
    let mut rest = bytes;
    while let [byte, after @ ..] = rest {
        if !is_blank(*byte) {
            return rest;
        }
        rest = after;
    }
    rest
}

/// How many bytes at the front are no blanks.
fn token_len(bytes: &[u8]) -> usize
    ensures within { result ≤ length bytes.now }
    ensures token { All (λ b. is_blank b ≡ false) (take result bytes.now) }
    ensures end { result < length bytes.now → is_blank (slice_index bytes.now result) ≡ true }
{
    for (i, byte) in bytes.iter().enumerate() {
        if is_blank(*byte) {
            return i;
        }
    }
    bytes.len()
}

/// The first token of a line, and what follows it.
pub(crate) fn next_token(bytes: &[u8]) -> Option<(&[u8], &[u8])>
    ensures none { IfNone result (tokens_of bytes.now ≡ []) }
    ensures some { IfSome result
        (λ found. tokens_of bytes.now ≡ found.0.now ∷ tokens_of found.1.now) }
    ensures shorter { IfSome result (λ found. length found.1.now < length bytes.now) }
{
    let rest = after_blanks(bytes);
    if rest.is_empty() {
        return None;
    }
    let (token, after) = rest.split_at(token_len(rest));
    Some((token, after))
}
