//! Where lines end.
ghost use Rattle.std.specs.Prelude.{◌≡◌, ◌≢◌, ℕ, ◌<◌, length, slice_index, IfSome, IfNone};

use line_spelling::LINE_END;
use memchr::memchr;

/// Where the first line end is.
pub fn find_line_end(bytes: &[u8]) -> Option<usize>
    ensures within { IfSome result (λ i. i < length bytes.now) }
    ensures found { IfSome result (λ i. slice_index bytes.now i ≡ LINE_END) }
    ensures first { IfSome result (λ i. (k : ℕ) → k < i → slice_index bytes.now k ≢ LINE_END) }
    ensures none { IfNone result ((k : ℕ) → k < length bytes.now → slice_index bytes.now k ≢ LINE_END) }
{
    memchr(LINE_END, bytes)
}
