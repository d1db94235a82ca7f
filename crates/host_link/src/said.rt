//! What a link says later.

use crate::limits::MAX_CARET;

/// A text that came on a link that was welcomed.
#[derive(Clone, Copy)]
pub enum Said<'a> {
    /// Orders under a number: one a line, all of them or none.
    Order { number: u32, lines: &'a str },
    /// Where its caret is, in words that the host doesn't read.
    Caret(&'a str),
    /// Nothing that a link may say.
    Bad,
}

// Reads `NUMBER`, a line end, and lines.
fn read_order(rest: &str) -> Said<'_> {
    let Some((number, lines)) = rest.split_once('\n') else {
        return Said::Bad;
    };
    match number.parse::<u32>() {
        Ok(number) if !lines.is_empty() => Said::Order { number, lines },
        _ => Said::Bad,
    }
}

// Reads the words of a caret.
fn read_caret(rest: &str) -> Said<'_> {
    if rest.len() > MAX_CARET || rest.contains('\n') {
        return Said::Bad;
    }
    Said::Caret(rest)
}

/// Reads `order NUMBER` with lines behind it, or `caret WORDS`.
pub fn read_said(text: &str) -> Said<'_> {
    let Some((word, rest)) = text.split_once(' ') else {
        return Said::Bad;
    };
    match word.as_bytes() {
        b"order" => read_order(rest),
        b"caret" => read_caret(rest),
        _ => Said::Bad,
    }
}
