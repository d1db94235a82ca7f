//! The lines of a watch.
ghost use Rattle.std.specs.Prelude.{◌≡◌, ◌++◌, OnOk};
ghost use Rattle.form_watch.specs.Reads.{page_line};

use element_name::NoMemory;
use line_write::{put, put_number_word, put_shown};
use screen_read::Page;

/// Appends the line of a page that was read.
pub(crate) fn put_page(page: &Page, out: &mut Vec<u8>) -> Result<(), NoMemory>
    ensures { OnOk result (out.new.items ≡ out.old.items ++ page_line page.now) }
{
    put(out, b"read")?;
    put_number_word(out, page.steps())?;
    put_shown(out, page.text().as_str().as_bytes())?;
    put(out, b"\n")
}
