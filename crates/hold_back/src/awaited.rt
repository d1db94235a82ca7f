//! What is awaited.
ghost use Rattle.std.specs.Prelude.{◌≡◌, ◌==◌, ◌<◌, true, nat_lt};
ghost use Rattle.std.specs.Ordering.{nat_cmp};
ghost use Rattle.hold_back.specs.declared.awaited.Awaited.TheVariants as awaited;
ghost use Rattle.hold_back.specs.Index.{awaited_need, need_awaited, awaited_key, awaited_rank, is_ranked, need_fits, key_fits};

use crate::need::Need;
use edit_message::Key;
use name_index::PackedName;
use std::cmp::Ordering;

/// What a message awaits, or what has its key. In the order nothing comes first, then versions, and then elements.
#[derive(Clone, Copy)]
pub(crate) enum Awaited {
    /// Nothing: the message is woken.
    Nothing,
    /// This version, or as many entries of the log.
    Version(u32),
    /// The element or the request of this name.
    Element(PackedName),
}

impl Awaited {
    /// What a message awaits that has this need, or none.
    pub(crate) fn of_need(need: &Option<Need>) -> Awaited
        ensures value { result ≡ awaited_need need.now }
        ensures fits { need_fits need.now ≡ true }
    {
        match *need {
            None => Awaited::Nothing,
            Some(Need::Element(name)) => Awaited::Element(PackedName::of(name)),
            Some(Need::Front(version)) => Awaited::of_version(version),
        }
    }

    /// What has the key.
    pub(crate) fn of_key(key: Key) -> Awaited
        ensures value { result ≡ awaited_key key }
        ensures fits { key_fits key ≡ true }
    {
        match key {
            Key::Coop(name) => Awaited::Element(PackedName::of(name)),
            Key::Admin(version) => Awaited::of_version(version),
        }
    }

    /// The need of a message that awaits this; none where it is woken.
    pub(crate) fn need(&self) -> Option<Need>
        ensures { result ≡ need_awaited self.now }
    {
        match *self {
            Awaited::Nothing => None,
            Awaited::Version(version) => Some(Need::Front(version)),
            Awaited::Element(name) => Some(Need::Element(name.name())),
        }
    }

    fn of_version(version: u32) -> Awaited
        ensures value { result ≡ awaited.Version version }
        ensures fits { is_ranked result ≡ true }
    {
        Awaited::Version(version)
    }

    /// How this stands to the other in the order.
    pub(crate) fn compare(&self, other: &Awaited) -> Ordering
        ensures { result ≡ nat_cmp (awaited_rank self.now) (awaited_rank other.now) }
    {
        match (self, other) {
            (Awaited::Nothing, Awaited::Nothing) => Ordering::Equal,
            (Awaited::Nothing, _) => Ordering::Less,
            (_, Awaited::Nothing) => Ordering::Greater,
            (Awaited::Version(own), Awaited::Version(version)) => own.cmp(version),
            (Awaited::Version(own), Awaited::Element(_)) => before_names(*own),
            (Awaited::Element(_), Awaited::Version(version)) => before_names(*version).reverse(),
            (Awaited::Element(own), Awaited::Element(name)) => compare_names(*own, *name),
        }
    }

    /// Whether both are one.
    pub(crate) fn is_same(&self, other: &Awaited) -> bool
        ensures { result ≡ (awaited_rank self.now == awaited_rank other.now) }
    {
        matches!(self.compare(other), Ordering::Equal)
    }
}

// How each version stands to each name.
fn before_names(version: u32) -> Ordering
    ensures value { result ≡ Ordering.Less }
    ensures small { version < 4294967296 }
{
    Ordering::Less
}

fn compare_names(own: PackedName, name: PackedName) -> Ordering
    ensures { result ≡ nat_cmp (awaited_rank (awaited.Element own)) (awaited_rank (awaited.Element name)) }
{
    own.cmp(&name)
}
