//! The first whole line of what is ahead.
ghost use Rattle.std.specs.Prelude.{◌≡◌, ◌<◌, ◌≤◌, ◌∷◌, ◌++◌, length, take, IfNone, IfSome};
ghost use Rattle.std.specs.Str.{byte};
ghost use Rattle.lj_text.specs.LinesRead.{HasNoLineEnd};

use memchr::memchr;

/// The bytes before the first line feed, and those after it, where it isn't among the first `searched`. Takes time linear in
/// the bytes behind those, up to it.
pub(crate) fn first_line(bytes: &[u8], searched: usize) -> Option<(&[u8], &[u8])>
    requires within { searched ≤ length bytes.now }
    requires none_before { HasNoLineEnd (take searched bytes.now) }
    ensures none { IfNone result (HasNoLineEnd bytes.now) }
    ensures some { IfSome result
        (λ found. bytes.now ≡ found.0.now ++ byte "\n" ∷ found.1.now) }
    ensures line { IfSome result (λ found. HasNoLineEnd found.0.now) }
{
    let (_, rest) = bytes.split_at(searched);
    let end = searched + memchr(b'\n', rest)?;
    let (line, after) = bytes.split_at(end);
    let (_, after) = after.split_at(1);
    Some((line, after))
}
