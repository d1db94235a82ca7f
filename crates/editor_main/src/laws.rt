//! What the definitions say. A function does nothing: it stands for its statement.
ghost use Rattle.std.specs.Prelude.{◌≡◌};

use crate::limits::{
    MAX_FILE_NAME, MAX_LINKS, MAX_PORT, MAX_READS, MAX_ROUNDS, MAX_SEED, MAX_SITE,
};

/// The limits of what words say, by their numbers.
pub fn limits()
    ensures site { MAX_SITE ≡ 65535 }
    ensures seed { MAX_SEED ≡ 4294967295 }
    ensures port { MAX_PORT ≡ 65535 }
    ensures links { MAX_LINKS ≡ 16 }
    ensures rounds { MAX_ROUNDS ≡ 1000 }
    ensures reads { MAX_READS ≡ 100 }
    ensures file_name { MAX_FILE_NAME ≡ 255 }
{}
