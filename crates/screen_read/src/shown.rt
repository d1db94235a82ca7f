//! What readers take: a page, and the beginning of the roll that ends with it.
ghost use Rattle.std.specs.Prelude.{◌≡◌, ◌++◌, ◌∷◌, [], IfOk, MatchBool};
ghost use mathlib.Core.List.{IsPrefix};
ghost use Rattle.screen_read.specs.Pages.{IsAscending, IsNewest};
ghost use Rattle.screen_read.specs.Ends.{board_pages};
ghost use Rattle.screen_read.specs.Roll.{book_head};

use crate::page::Page;
use crate::roll::{Head, Part, enlist, open};
use element_name::NoMemory;
use left_right::Absorb;
use std::alloc::AllocError;
use std::marker::Model;

// A roll has fewer pages than this.
const MOST: u64 = 1 << 62;

/// The last of the pages of a board at some time, and of the others how many they are.
///
/// Contracts see the name of the board, and the list of pages.
#[derive(Drop)]
pub struct Shown {
    number: u64,
    page: Page,
    part: Part,
}

impl Model for Shown {
    ghost use Rattle.std.specs.Prelude.{◌≡◌, length};
    ghost use Rattle.screen_read.specs.Pages.{IsAscending, IsNewest};
    ghost use Rattle.screen_read.specs.Ends.{BoardPages, board_pages};

    ghost Value = { BoardPages };

    ghost view = { λ s. board_pages s.part.book s.part.log };

    ghost invariant = { λ s. (s.number ≡ length s.part.log) × IsNewest s.part.log s.page × IsAscending s.part.log };
}

impl Shown {
    /// A new board, with its first page.
    pub(crate) fn first(page: Page) -> Result<(Head, Shown), NoMemory>
        ensures head { IfOk result (λ r. r.0 ≡ book_head r.1.table) }
        ensures pages { IfOk result (λ r. r.1.pages ≡ page ∷ []) }
    {
        let (head, mut part) = open();
        if !enlist(&head, &mut part, 0, &page) {
            return Err(NoMemory);
        }
        let shown = Shown {
            number: 1,
            page,
            part,
        };
        Ok((head, shown))
    }

    /// The pages with one more, which goes onto the roll. Fails where the roll has more pages than these.
    pub(crate) fn followed(&self, head: &Head, page: Page) -> Result<Shown, NoMemory>
        requires head { head.now ≡ book_head self.now.table }
        requires up { IsAscending (self.now.pages ++ page ∷ []) }
        ensures { IfOk result (λ s. s ≡ board_pages self.now.table (self.now.pages ++ page ∷ [])) }
    {
        if self.number >= MOST {
            return Err(NoMemory);
        }
        let mut part = self.part.again();
        if !enlist(head, &mut part, self.number, &page) {
            return Err(NoMemory);
        }
        Ok(Shown {
            number: self.number + 1,
            page,
            part,
        })
    }

    /// The same pages. Fails where the last text has as many pages as can be counted.
    pub(crate) fn again(&self) -> Result<Shown, NoMemory>
        ensures { IfOk result (λ s. s ≡ self.now) }
    {
        Ok(Shown {
            number: self.number,
            page: self.page.again()?,
            part: self.part.again(),
        })
    }

    /// Whether these pages begin the others; if not, the others begin these.
    pub(crate) fn begins(&self, other: &Shown) -> bool
        requires { other.now.table ≡ self.now.table }
        ensures { MatchBool result (IsPrefix self.now.pages other.now.pages) (IsPrefix other.now.pages self.now.pages) }
    {
        let mut both = self.part.again();
        both.learn(&other.part);
        self.number <= other.number
    }

    /// The last page.
    pub(crate) fn page(&self) -> &Page
        ensures newest { IsNewest self.now.pages result.now }
        ensures ascending { IsAscending self.now.pages }
    {
        &self.page
    }
}

/// An operation is what is shown next.
impl Absorb<Shown> for Shown {
    type State = Shown;

    ghost state = { λ s. s };

    ghost applied = { λ s next. next };

    fn absorb_first(&mut self, operation: &Shown, _other: &Shown) -> Result<(), AllocError> {
        match operation.again() {
            Ok(shown) => {
                *self = shown;
                Ok(())
            }
            Err(_) => Err(AllocError),
        }
    }

    fn absorb_second(&mut self, operation: Shown, _other: &Shown) -> Result<(), Shown> {
        *self = operation;
        Ok(())
    }
}
