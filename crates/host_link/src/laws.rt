//! Laws of how links are closed, and of their limits.
ghost use Rattle.std.specs.Prelude.{◌≡◌};
ghost use Rattle.host_link.specs.Closes.{ServerCodeLaw, ReasonLaw, OneEndingLaw, AllEndingsLaw};

use crate::limits::{FRAMES_AT_ONCE, MAX_CARET, MAX_MESSAGE, MAX_NAME, MAX_REASON, PROTOCOL};

/// Each ending has a code that RFC 6455 lets a server send, and words that a close has room for. No two have one code, so
/// that a page can tell each from all others. The list of all endings has each.
pub fn closes()
    ensures codes { ServerCodeLaw }
    ensures words { ReasonLaw }
    ensures apart { OneEndingLaw }
    ensures all { AllEndingsLaw }
{}

/// The limits in numbers.
pub fn limits()
    ensures protocol { PROTOCOL ≡ 1 }
    ensures message { MAX_MESSAGE ≡ 65536 }
    ensures frames { FRAMES_AT_ONCE ≡ 32768 }
    ensures caret { MAX_CARET ≡ 200 }
    ensures name { MAX_NAME ≡ 40 }
    ensures reason { MAX_REASON ≡ 123 }
{}
