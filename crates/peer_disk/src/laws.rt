//! Laws of files of records.
ghost use Rattle.std.specs.Prelude.{◌≡◌, ℕ, List};
ghost use Rattle.peer_disk.specs.Records.{HasBodies, BreaksAfter};

/// A file of a site has one list of bodies.
pub fn one_reading()
    ensures { (site : ℕ) (file : List ℕ) (first second : List (List ℕ)) → HasBodies site first file → HasBodies site second file → first ≡ second }
{}

/// A file that ends in a broken record has none.
pub fn broken_has_none()
    ensures { (site : ℕ) (file : List ℕ) (first second : List (List ℕ)) → BreaksAfter site first file → HasBodies site second file → ⊥ }
{}
