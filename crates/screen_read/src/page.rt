//! Pages.
ghost use Rattle.std.specs.Prelude.{◌≡◌, IfOk};
ghost use Rattle.screen_read.specs.Pages.{page_text};

use element_name::NoMemory;
use peer_step::Text;
use std::alloc::Global;
use std::marker::Model;
use std::sync::Arc;

/// A text that was published, and how many steps led to it.
///
/// The text lies in memory once, and the pages that have it count themselves.
#[derive(Drop)]
pub struct Page {
    steps: u64,
    text: Arc<Text>,
}

impl Model for Page {
    ghost use Rattle.std.specs.Arc.{arc_value};
    ghost use Rattle.screen_read.specs.Pages.{PageText, page_text};

    ghost Value = { PageText };

    ghost view = { λ p. page_text p.steps (arc_value p.text) };
}

impl Page {
    pub(crate) fn new(alloc: Global, steps: u64, text: Text) -> Result<Page, NoMemory>
        ensures { IfOk result (λ p. p ≡ page_text steps text) }
    {
        Ok(Page {
            steps,
            text: Arc::new(alloc, text)?,
        })
    }

    /// How many steps led to the text.
    pub fn steps(&self) -> u64
        ensures { result ≡ self.now.steps }
    {
        self.steps
    }

    /// The text after these steps.
    pub fn text(&self) -> &Text
        ensures { result.now ≡ self.now.text }
    {
        &self.text
    }

    /// A page that equals this one. It shares the text, so it takes the same time whatever the length, and no memory.
    /// Fails where the text has as many pages as can be counted.
    pub fn again(&self) -> Result<Page, NoMemory>
        ensures { IfOk result (λ p. p ≡ self.now) }
    {
        Ok(Page {
            steps: self.steps,
            text: Arc::try_clone(&self.text)?,
        })
    }
}
