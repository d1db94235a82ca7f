//! What a journal's elements are kept in while it is read.
ghost use Rattle.std.specs.Prelude.{◌≡◌, true, is_none, List, IfOk};
ghost use Rattle.element_name.specs.Name.{has_name};
ghost use Rattle.element_name.specs.Tree.{with_fresh};
ghost use Rattle.tomb_seq.specs.Insert.{insert_fault};

use element_name::{Name, NoMemory, Places};
use tomb_seq::{SeqFault, TombSeq};

/// Elements in text order that come one by one, seen as the list of their names.
pub(crate) trait Elements: Drop {
    ghost use Rattle.element_name.specs.Name as spec;

    ghost names: { Self → List spec.Name };

    /// Whether the name is an element's.
    fn knows(&self, n: Name) -> bool
        ensures { result ≡ has_name (names self.now) n };

    /// Puts a new element in after its anchor, and answers whether it could be put in.
    fn put(&mut self, n: Name, after: Name) -> Result<bool, NoMemory>
        ensures test { IfOk result (λ placed. placed ≡ is_none (insert_fault (names self.old) n after)) }
        ensures placed { IfOk result (λ placed. placed ≡ true → names self.new ≡ with_fresh (names self.old) n after) };
}

impl Elements for TombSeq {
    ghost use Rattle.tomb_seq.specs.Slots.{names_in};

    ghost names = { names_in };

    fn knows(&self, n: Name) -> bool {
        self.has(n)
    }

    fn put(&mut self, n: Name, after: Name) -> Result<bool, NoMemory> {
        match self.insert(n, after) {
            Ok(_) => Ok(true),
            Err(SeqFault::NoMemory) => Err(NoMemory),
            Err(_) => Ok(false),
        }
    }
}
