//! Carets, which stand behind an element that is known by its name.
ghost use Rattle.std.specs.Prelude.{◌≡◌, ◌<◌, length, slice_get, nat_lt};
ghost use Rattle.coop_request.specs.History.{text_order};
ghost use Rattle.peer_core.specs.Peer.{history, shown_elements};
ghost use Rattle.peer_core.specs.Carets.{count_up_to, shown_up_to};

use super::Peer;
use element_name::Name;

impl Peer {
    /// The element that shows at a place of the text, from 0. A caret behind that place stands behind this element,
    /// whatever step comes.
    ///
    /// Takes a step for each group of 32 blocks of elements and a pass over a block, and no memory.
    pub fn shown_at(&self, place: u32) -> Option<Name>
        ensures { result ≡ slice_get (shown_elements self.now) place }
    {
        self.journal.shown_at(place)
    }

    /// How many elements that show stand up to this one in text order, itself counted if it shows; none where the name
    /// is no element. That is the place of a caret behind the element, whether it still shows or not.
    ///
    /// Takes the logarithm of the shown elements, times what `shown_at` takes, and no memory.
    pub fn shown_up_to(&self, element: Name) -> Option<u32>
        ensures { result ≡ shown_up_to self.now element }
    {
        let place = self.journal.place_of(element)?;
        Some(self.count_up_to(place))
    }

    // How many elements that show have a place in text order that isn't greater.
    fn count_up_to(&self, place: usize) -> u32
        ensures { result ≡ count_up_to (text_order (history self.now)) (shown_elements self.now) place }
    {
        let mut low = 0;
        let mut high = self.journal.shown();
        while low < high {
            let middle = low + (high - low) / 2;
            if self.stands_up_to(middle, place) {
                low = middle + 1;
            } else {
                high = middle;
            }
        }
        low
    }

    // Whether the shown element of a number has a place that isn't greater: those are the first ones.
    fn stands_up_to(&self, i: u32, place: usize) -> bool
        requires { i < length (shown_elements self.now) }
        ensures { result ≡ nat_lt i (count_up_to (text_order (history self.now)) (shown_elements self.now) place) }
    {
        let Some(element) = self.journal.shown_at(i) else {
            unreachable!()
        };
        match self.journal.place_of(element) {
            Some(at) => at <= place,
            None => unreachable!(),
        }
    }
}
