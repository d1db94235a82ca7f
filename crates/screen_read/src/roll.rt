//! The roll of a board: the list of its pages. The proofs alone have it; in memory it is one number, how many they are.
ghost use Rattle.std.specs.Prelude.{◌≡◌, ◌<◌, ◌^◌, ◌++◌, ◌∷◌, [], length, MatchBool};
ghost use mathlib.Core.List.{IsPrefix};
ghost use Rattle.screen_read.specs.Roll.{book_head};

use crate::page::Page;
use logbook::{Gain, Offer, Plain, Play, Rule, Seen, Start, Word};

/// The first word is how many pages there are.
pub struct OneRoll;

impl Rule<Page, u64> for OneRoll {
    ghost use Rattle.std.specs.Prelude.{[]};
    ghost use base.Fml.{ftrue};
    ghost use Rattle.screen_read.specs.Roll.{IsRoll};

    ghost holds = { λ cells log. IsRoll cells log };

    ghost first = { [] };

    ghost hinted = { λ n log. Unit {0} };

    ghost shows = { λ log. [] };

    ghost keeps = { λ names log. ftrue };

    ghost moves = { λ ask before after answer. Unit {0} };
}

/// Callers trade nothing.
pub struct Nothing;

impl Gain<Page, u64> for Nothing {
    ghost use base.Fml.{ftrue};

    ghost after = { λ names about answer. ftrue };
}

/// A step that adds a page.
pub struct Add;

impl Play<Page, u64> for Add {
    ghost use Rattle.screen_read.specs.Roll.{Adds};

    ghost then = { Adds };
}

impl Plain<Page, Page, u64> for Add {
    ghost use Rattle.std.specs.Prelude.{None};

    ghost ask = { λ page. page };

    ghost state = { λ page. None };
}

/// How many pages the roll has.
pub type Head = Word<Page, u64, OneRoll>;

/// A beginning of the roll. It has no bytes.
pub type Part = Seen<Page, u64, OneRoll>;

/// A new roll, with no page.
pub(crate) fn open() -> (Head, Part)
    ensures head { result.0 ≡ book_head result.1.book }
    ensures empty { result.1.log ≡ [] }
{
    let (part, mut first, _second) = Seen::open(Start::alone(), 0, 0);
    (Word::tracked(0, &mut first), part)
}

/// Adds a page, and says whether it did. It did not where the roll is longer than the part.
pub(crate) fn enlist(head: &Head, part: &mut Part, number: u64, page: &Page) -> bool
    requires head { head.now ≡ book_head part.old.book }
    requires number { number ≡ length part.old.log }
    requires room { number < 2 ^ 62 }
    ensures book { part.new.book ≡ part.old.book }
    ensures added { MatchBool result (part.new.log ≡ part.old.log ++ page.now ∷ []) (IsPrefix part.old.log part.new.log) }
{
    let mut offer: Offer<Page, u64, OneRoll, Nothing> = part.plain::<Nothing, Page, Add>(page);
    let mut pen = part.no_pen();
    let found = head.compare_exchange::<Add, Nothing>(
        number,
        number + 1,
        part,
        &mut offer,
        &mut pen,
    );
    found == number
}
