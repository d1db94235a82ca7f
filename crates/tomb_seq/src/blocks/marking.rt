//! Marks of elements.
ghost use Rattle.std.specs.Prelude.{◌≡◌};
ghost use Rattle.tomb_seq.specs.Runs.{IsThere, slots_of};
ghost use Rattle.tomb_seq.specs.Slots.{with_mark};

use super::Blocks;
use crate::spot::Spot;
use element_name::Name;

impl Blocks {
    /// Marks an element.
    pub fn mark(&mut self, name: Name, shows: bool)
        ensures { slots_of self.new ≡ with_mark (slots_of self.old) name shows }
    {
        match self.spot_of(name) {
            Some(spot) => self.mark_at(spot, name, shows),
            None => {}
        }
    }

    // Marks the element at a spot.
    fn mark_at(&mut self, spot: Spot, name: Name, shows: bool)
        requires { IsThere self.old name spot }
        ensures { slots_of self.new ≡ with_mark (slots_of self.old) name shows }
    {
        let block = &mut self.list[spot.rank];
        block.mark(spot.place, shows);
        self.shows.set(spot.rank, block.shown());
    }
}
