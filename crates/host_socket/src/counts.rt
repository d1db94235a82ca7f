//! What a host counts.

use host_link::{ALL_ENDINGS, ENDINGS, Ending};
use std::alloc::{AllocError, Global};

/// What a host counted since it began.
#[derive(Clone, Copy, Debug, PartialEq, Eq)]
pub struct Counts {
    /// Connections that were taken in.
    pub connections: u64,
    /// Links that were welcomed.
    pub links: u64,
    /// Requests and operations that came.
    pub requests: u64,
    /// Messages of journals that were given to links.
    pub items: u64,
    /// Bytes of their frames.
    pub bytes: u64,
    /// Saves.
    pub saves: u64,
    // Links that were closed, by the place of the ending.
    endings: [u64; ENDINGS],
}

impl Counts {
    /// Nothing.
    pub const NONE: Counts = Counts {
        connections: 0,
        links: 0,
        requests: 0,
        items: 0,
        bytes: 0,
        saves: 0,
        endings: [0; ENDINGS],
    };

    /// A link was closed so.
    pub fn ended(&mut self, why: Ending) {
        let Some(place) = ALL_ENDINGS.iter().position(|it| *it == why) else {
            return;
        };
        if let Some(count) = self.endings.get_mut(place) {
            *count = count.saturating_add(1);
        }
    }

    /// Prometheus' text form.
    pub fn text(&self, alloc: Global, open: usize) -> Result<String, AllocError> {
        let Counts {
            connections,
            links,
            requests,
            items,
            bytes,
            saves,
            endings: _,
        } = *self;
        let mut text = format!(in alloc;
            "host_connections_open {open}\nhost_connections_total {connections}\nhost_links_total {links}\nhost_requests_total {requests}\nhost_items_total {items}\nhost_bytes_total {bytes}\nhost_saves_total {saves}\n"
        )?;
        for (why, count) in ALL_ENDINGS.iter().zip(self.endings.iter()) {
            let code = why.code();
            let words = why.words();
            let line = format!(in alloc;
                "host_closed_total{{code=\"{code}\",why=\"{words}\"}} {count}\n"
            )?;
            text.push_str(line.as_str())?;
        }
        Ok(text)
    }
}
