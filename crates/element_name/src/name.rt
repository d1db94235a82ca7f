//! Names.
ghost use Rattle.std.specs.Prelude.{◌≡◌};
ghost use Rattle.element_name.specs.Cases.{when};
ghost use Rattle.element_name.specs.Name.{start, IsName, is_in_range};

use crate::limits::MAX_STAMP;
use std::marker::Model;

/// The name of a request, and of the element that an insert makes: `stamp.site`.
///
/// Names are ordered by stamp, and then by site. A stamp is a Lamport clock's: that of a peer's next edit is one
/// more than the greatest of the requests that it has integrated, so that its name is greater than all of theirs.
#[derive(Clone, Copy, Debug, PartialEq, Eq, PartialOrd, Ord, Hash)]
pub struct Name {
    stamp: u64,
    site: u16,
}

impl Model for Name {
    ghost use Rattle.element_name.specs.Name as spec;

    ghost Value = { spec.Name };

    ghost view = { λ n. record { stamp = n.stamp; site = n.site } };

    ghost invariant = { λ n. spec.IsName (record { stamp = n.stamp; site = n.site }) };

    ghost inverse = { λ n. record { stamp = n.stamp; site = n.site } };
}

impl Name {
    /// `0.0`, which precedes every element and is itself none: the anchor of what stands first.
    pub fn start() -> Name
        ensures { result ≡ start }
    {
        Name { stamp: 0, site: 0 }
    }

    /// The name of a stamp and a site; none where the stamp is above [`MAX_STAMP`], or is 0 and the site isn't.
    pub fn read(stamp: u64, site: u16) -> Option<Name>
        ensures { result ≡ when (is_in_range stamp site) (record { stamp = stamp; site = site }) }
    {
        if stamp > MAX_STAMP || (stamp == 0 && site != 0) {
            return None;
        }
        Some(Name::from_known(stamp, site))
    }

    /// The name of a stamp and a site that are known to be one's.
    pub fn from_known(stamp: u64, site: u16) -> Name
        requires { IsName (record { stamp = stamp; site = site }) }
        ensures { result ≡ record { stamp = stamp; site = site } }
    {
        Name { stamp, site }
    }

    /// The stamp, which also says how old the name may be: what was made after it was known has a greater one.
    pub fn stamp(self) -> u64
        ensures value { result ≡ self.stamp }
        ensures in_range { IsName self }
    {
        self.stamp
    }

    /// The number of the site, and so of the user, that made it.
    pub fn site(self) -> u16
        ensures value { result ≡ self.site }
        ensures in_range { IsName self }
    {
        self.site
    }
}
