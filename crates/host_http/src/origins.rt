//! Which pages may ask for a link.

use std::alloc::AllocError;

/// The places whose pages may ask for a link, each spelled as a browser spells it: `https://notes.example.org`.
#[derive(Drop)]
pub struct Origins {
    places: Vec<String>,
}

impl Origins {
    /// These places.
    pub fn new(places: Vec<String>) -> Origins {
        Origins { places }
    }

    /// Adds a place.
    pub fn add(&mut self, place: String) -> Result<(), AllocError> {
        Ok(self.places.push(place)?)
    }

    /// Whether a request with this field `Origin` may ask for a link. One without it comes from no page.
    pub fn allow(&self, origin: Option<&[u8]>) -> bool {
        let Some(origin) = origin else {
            return true;
        };
        self.places
            .iter()
            .any(|it| it.as_str().as_bytes() == origin)
    }
}
