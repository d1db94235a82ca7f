//! What happens at a host, for who reads its log. No secret stands in it.

use host_link::Ending;
use std::fmt;

/// Something that happened.
#[derive(Debug, Drop)]
pub enum Happening {
    /// A link of a site to a document was welcomed.
    Linked { document: String, site: u16 },
    /// A link of a site ended, if the host ended it with the reason.
    Left { site: u16, why: Option<Ending> },
    /// A device was made for a person.
    Joined { site: u16 },
    /// An owner ordered something.
    Ordered { site: u16, number: u32 },
    /// A document can't be used: its state.
    Broken { document: String, state: String },
    /// Nobody is taken in for a while: the system has no descriptor left.
    Paused,
}

impl fmt::Display for Happening {
    fn fmt<W: fmt::Write>(&self, f: &mut fmt::Formatter<W>) -> fmt::Result {
        match self {
            Happening::Linked { document, site } => {
                let document = document.as_str();
                write!(f, "linked site={site} document={document}")
            }
            Happening::Left { site, why: None } => write!(f, "left site={site}"),
            Happening::Left {
                site,
                why: Some(why),
            } => {
                let code = why.code();
                let words = why.words();
                write!(f, "closed site={site} code={code} why={words}")
            }
            Happening::Joined { site } => write!(f, "joined site={site}"),
            Happening::Ordered { site, number } => write!(f, "ordered site={site} number={number}"),
            Happening::Broken { document, state } => {
                let document = document.as_str();
                let state = state.as_str();
                write!(f, "broken document={document} state={state}")
            }
            Happening::Paused => write!(f, "paused: no descriptor is left"),
        }
    }
}
