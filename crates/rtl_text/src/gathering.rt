//! The reading of all assignments of a text.

ghost use Rattle.std.specs.Prelude.{◌≡◌, IfOk, Some, []};
ghost use Rattle.std.specs.Option.{option_map};
ghost use Rattle.rtl_word.specs.Words.{IsWordSize};
ghost use Rattle.rtl_spelling.specs.Reading;
ghost use Rattle.rtl_text.specs.Collected.{collects, item, move_of, pushed};
ghost use Rattle.rtl_token.specs.Gives.{Gives};
ghost use Rattle.rtl_text.specs.Seen.{context_of, said_by, tokens_of};

use crate::moves::assignment;
use crate::said::Assignment;
use rtl_spelling::Sign;
use rtl_token::{Context, Token, Trouble, expect, head_of, is_sign, rest_of, wrong};
use rtl_tree::{Assign, NoMemory};
use smallvec::SmallVec;
use std::alloc::Global;

/// Assignments with their places; none where a place can't be one.
pub(crate) type Gathered = Option<SmallVec<Assign, 3>>;

fn gathered(made: Gathered, a: Assignment) -> Result<Gathered, NoMemory>
    ensures { IfOk result (λ r. option_map (λ l. l.items) r ≡ pushed (option_map (λ l. l.items) made) (move_of (said_by a))) }
{
    match (made, a.to) {
        (Some(mut list), Some(to)) => {
            list.push(Assign { to, value: a.value })?;
            Ok(Some(list))
        }
        _ => Ok(None),
    }
}

/// The next assignment, whether the text ends with it, and the tokens behind it and behind the end or the `; ` that follows.
/// `Reading.item` says it of tokens; nothing is said where memory runs out.
pub fn item<'t, 'a>(
    alloc: Global,
    c: &Context<'_>,
    tokens: &'t [Token<'a>],
) -> Result<(Assignment, bool, &'t [Token<'a>]), Trouble>
    requires { IsWordSize c.now.bits }
    ensures { Gives (λ x. ((said_by x.0, x.1), tokens_of x.2.now)) result (item (context_of c.now) (tokens_of tokens.now)) }
{
    let (a, tokens) = assignment(alloc, c, tokens)?;
    if is_sign(Sign::End, head_of(tokens)) {
        return Ok((a, true, rest_of(tokens)));
    }
    let tokens = expect(Sign::Semicolon, tokens)?;
    let tokens = expect(Sign::Space, tokens)?;
    Ok((a, false, tokens))
}

/// The assignments of a text, up to its end.
pub(crate) fn transfer<'t, 'a>(
    alloc: Global,
    c: &Context<'_>,
    tokens: &'t [Token<'a>],
) -> Result<(Gathered, &'t [Token<'a>]), Trouble>
    requires { IsWordSize c.now.bits }
    ensures { Gives (λ x. (option_map (λ l. l.items) x.0, tokens_of x.1.now)) result
        (collects (Some []) (Reading.transfer (context_of c.now) 31 (tokens_of tokens.now))) }
{
    let mut made = Some(SmallVec::new(alloc));
    // In a loop a slice of references takes the place of another only where a call gave both.
    let (_, mut rest) = tokens.split_at(0);
    for _ in 0..tokens.len() {
        let (a, is_last, behind) = item(alloc, c, rest)?;
        made = gathered(made, a)?;
        if is_last {
            return Ok((made, behind));
        }
        rest = behind;
    }
    Err(wrong(rest))
}
