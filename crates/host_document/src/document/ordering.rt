//! Rows of orders to a document.
ghost use Rattle.std.specs.Prelude.{◌≡◌, false, IfOk, IfErr};
ghost use Rattle.host_interface.specs.Rows.{MakesRow};

use super::Document;
use crate::opened::Halt;
use host_core::LinkId;
use host_interface::RowFault;
use host_link::Ending;
use std::alloc::Global;

impl<'a> Document<'a> {
    // Makes a row of orders of a link, if it is open.
    pub(super) fn order_open(
        &mut self,
        alloc: Global,
        link: LinkId,
        lines: &str,
    ) -> Result<Vec<u8>, Halt>
        ensures whole { IfOk result (λ answers. MakesRow link lines.now self.old self.new answers.items) }
        ensures nothing { IfErr result (λ halt. halt.is_torn ≡ false → self.new ≡ self.old) }
    {
        match &mut self.opened {
            Some(opened) => opened.order(alloc, link, lines.as_bytes()),
            None => Err(Halt::from(RowFault::Ended(Ending::NoDocument))),
        }
    }
}
