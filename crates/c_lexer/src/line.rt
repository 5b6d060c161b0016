//! What stands on a line before a place.

ghost use Rattle.std.specs.Prelude.{◌≡◌};
ghost use Rattle.c_lexer.specs.Lexing;
ghost use Rattle.c_lexer.specs.Lexing.{is_fresh};
ghost use Rattle.c_lexer.specs.Gives.{Takes, TakesIn};
ghost use Rattle.std.specs.Prelude.{◌<◌, ◌^◌, ℕ, List, length, IfOk};

use crate::piece::piece_at;
use crate::rule::{Fault, Rule, Trouble};
use c_tree::{At, TokenKind};
use std::alloc::Global;

#[derive(Clone, Copy, PartialEq, Eq, Debug)]
pub(crate) enum Line {
    /// No token.
    Fresh,
    /// A token, and no include line.
    Used,
    /// An include line, which has its `#` here.
    Included(At),
}

impl Line {
    pub(crate) fn is_fresh(self) -> bool
        ensures { result ≡ is_fresh self }
    {
        match self {
            Line::Fresh => true,
            Line::Used | Line::Included(_) => false,
        }
    }

    /// What stands on the line behind a piece with this first byte.
    pub(crate) fn behind(self, here: At, first: u8, token: &Option<TokenKind>) -> Line
        ensures { result ≡ Lexing.line_behind self here first token.now }
    {
        match token {
            Some(TokenKind::Include) => Line::Included(here),
            Some(_) => Line::Used,
            None if first == b'\n' => Line::Fresh,
            None => self,
        }
    }

    fn refused(self, here: At, rule: Rule) -> Fault
        ensures { result ≡ Fault.Breaks (Lexing.refused self here rule).0 (Lexing.refused self here rule).1 }
    {
        match (self, rule) {
            (Line::Included(_), Rule::OpenComment) => Fault::Breaks(here, rule),
            (Line::Included(hash), _) => Fault::Breaks(hash, Rule::Unknown),
            _ => Fault::Breaks(here, rule),
        }
    }
}

/// The piece, unless it is a token on the line of an include line.
fn taken(
    line: Line,
    token: Option<TokenKind>,
    length: usize,
) -> Result<(Option<TokenKind>, usize), Fault>
    ensures exact { (text : List ℕ) → Takes text result (Lexing.taken line text token length) }
    ensures same { IfOk result (λ x. x.1 ≡ length) }
{
    match (line, token) {
        (Line::Included(hash), Some(_)) => Err(Fault::Breaks(hash, Rule::Unknown)),
        (_, token) => Ok((token, length)),
    }
}

/// The next piece of a text that stands behind `line`, at `here`.
#[tactic(auto, unfolding(crate::specs::Lexing::next_piece))]
pub(crate) fn next_piece(
    alloc: Global,
    line: Line,
    here: At,
    text: &[u8],
) -> Result<(Option<TokenKind>, usize), Fault>
    requires some { (0 < length text.now) }
    requires short { length text.now < 2 ^ 32 }
    ensures exact { Takes text.now result (Lexing.next_piece line here text.now) }
    ensures within { TakesIn text.now result }
{
    match piece_at(alloc, line.is_fresh(), text) {
        Ok((token, length)) => taken(line, token, length),
        Err(Trouble::NoMemory) => Err(Fault::NoMemory),
        Err(Trouble::Breaks(rule)) => Err(line.refused(here, rule)),
    }
}
