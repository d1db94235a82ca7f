//! Laws of spellings and of streams.
ghost use Rattle.std.specs.Prelude.{◌≡◌, ℕ, List, ◌++◌, ◌+◌, take, true, false, Ok, Err};
ghost use Rattle.std.specs.List.{flat_map, list_all};
ghost use Rattle.edit_frame.specs.declared.frame.Frame.{Frame};
ghost use Rattle.edit_frame.specs.declared.frame.FrameKind.{FrameKind};
ghost use Rattle.edit_frame.specs.declared.limits.TheConstants.{LENGTH_BYTES, MIN_LENGTH, MAX_LENGTH, SITES};
ghost use Rattle.edit_frame.specs.Spelling.{spelling};
ghost use Rattle.edit_frame.specs.Spells.{IsBytes, is_frame, Spells};
ghost use Rattle.edit_frame.specs.Reading.{decoded_frame, length_field, frame_at, stream};
ghost use Rattle.edit_frame.specs.Splitter.{is_truncated};

/// What is encoded is decoded: alone, as the prefix of a stream, and frame after frame.
pub fn encoded_is_decoded()
    ensures alone { (f : Frame) → is_frame f ≡ true → decoded_frame (spelling f) ≡ Ok f }
    ensures prefix { (f : Frame) (rest : List ℕ) → is_frame f ≡ true → frame_at (spelling f ++ rest) ≡ Ok f }
    ensures all { (frames : List Frame) (rest : List ℕ) (kind : FrameKind)
        → list_all is_frame frames ≡ true → frame_at rest ≡ Err kind
        → stream (flat_map spelling frames ++ rest) ≡ record { frames = frames; rest = rest } }
{}

/// What is read of bytes is spelled by them: alone, by the prefix of a stream, and frame after frame, down to a rest that
/// begins with no frame. So nothing is read that isn't a frame, whether memory is wanting or not.
pub fn decoded_is_encoded()
    ensures alone { (bytes : List ℕ) (f : Frame) → IsBytes bytes → decoded_frame bytes ≡ Ok f → Spells bytes f }
    ensures prefix { (bytes : List ℕ) (f : Frame)
        → IsBytes bytes → frame_at bytes ≡ Ok f → Spells (take (LENGTH_BYTES + length_field bytes) bytes) f }
    ensures all { (bytes : List ℕ) → IsBytes bytes
        → (list_all is_frame (stream bytes).frames ≡ true) × (bytes ≡ flat_map spelling (stream bytes).frames ++ (stream bytes).rest) }
    ensures rest { (bytes : List ℕ) → IsBytes bytes → (kind : FrameKind) × (frame_at (stream bytes).rest ≡ Err kind) }
{}

/// A frame has one spelling, no bytes spell two frames, and no spelling begins another.
pub fn one_spelling()
    ensures frame { (bytes : List ℕ) (f g : Frame) → Spells bytes f → Spells bytes g → f ≡ g }
    ensures spelling { (a b : List ℕ) (f : Frame) → Spells a f → Spells b f → a ≡ b }
    ensures prefix { (a b x y : List ℕ) (f g : Frame)
        → Spells a f → Spells b g → a ++ x ≡ b ++ y → (f ≡ g) × (a ≡ b) × (x ≡ y) }
{}

/// A fault other than that the bytes end stays, whatever bytes follow. So it is told as soon as it stands.
pub fn fault_stays()
    ensures { (bytes more : List ℕ) (kind : FrameKind)
        → frame_at bytes ≡ Err kind → is_truncated kind ≡ false → frame_at (bytes ++ more) ≡ Err kind }
{}

/// The lengths and ranges in numbers.
pub fn limits()
    ensures length_bytes { LENGTH_BYTES ≡ 4 }
    ensures least { MIN_LENGTH ≡ 2 }
    ensures greatest { MAX_LENGTH ≡ 276 }
    ensures sites { SITES ≡ 65536 }
{}
