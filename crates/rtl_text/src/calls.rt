//! The reading of texts.

ghost use Rattle.std.specs.Prelude.{◌≡◌, ◌<◌, ◌^◌, [], IfErr, IfOk, List, length};
ghost use Rattle.std.specs.Option.{option_map};
ghost use Rattle.rtl_word.specs.Words.{IsWordSize};
ghost use Rattle.rtl_tree.specs.WellFormed.{IsWellFormed};
ghost use Rattle.rtl_spelling.specs.Reading;
ghost use Rattle.rtl_spelling.specs.Contract.{SpellsText, TextSays};
ghost use Rattle.rtl_spelling.specs.Printing.{IsPrintable};
ghost use Rattle.rtl_spelling.specs.Spelling.{AreApart, IsContext, Said};
ghost use Rattle.rtl_spelling.specs.Tokens.{Lexes, spelled};
ghost use Rattle.rtl_text.specs.Answering.{Outcome, Refuses, Tells, fault_at, gathered};
ghost use Rattle.rtl_token.specs.Gives.{Gives};
ghost use Rattle.rtl_text.specs.Seen.{context_of, printing_context, reading_context, tokens_of};

use crate::gathering::{Gathered, transfer};
use rtl_spelling::OpenHole;
use rtl_token::{Context, TextFault, Token, Trouble, lex, place, settled};
use rtl_tree::{Assign, Effects, Names, well_formed};
use rtl_word::Word;
use smallvec::SmallVec;
use std::alloc::Global;

fn reading(alloc: Global, c: &Context<'_>, tokens: &[Token<'_>]) -> Result<Gathered, Trouble>
    requires { IsWordSize c.now.bits }
    ensures { Gives (λ x. option_map (λ l. l.items) x) result (gathered (Reading.reading (context_of c.now) (tokens_of tokens.now))) }
{
    match transfer(alloc, c, tokens) {
        Ok((made, _)) => Ok(made),
        Err(trouble) => Err(settled(c, tokens, trouble)),
    }
}

fn transfer_of(list: SmallVec<Assign, 3>) -> Result<Effects, TextFault>
    ensures well { IfOk result (λ e. (e ≡ list.items) × IsWellFormed e) }
    ensures ill { IfErr result (λ f. (f ≡ TextFault.IllFormed) × (IsWellFormed list.items → ⊥)) }
{
    if list.is_empty() || list.len() > 6 {
        return Err(TextFault::IllFormed);
    }
    let effects = Effects { list };
    if well_formed(&effects) {
        Ok(effects)
    } else {
        Err(TextFault::IllFormed)
    }
}

fn fault(tokens: &[Token<'_>], trouble: Trouble) -> TextFault
    requires { length (spelled (tokens_of tokens.now)) < 2 ^ 64 }
    ensures { result ≡ fault_at (tokens_of tokens.now) trouble }
{
    match trouble {
        Trouble::NoMemory => TextFault::NoMemory,
        Trouble::Wrong(left) => TextFault::BadForm(place(tokens, left)),
        Trouble::Deep(left) => TextFault::TooDeep(place(tokens, left)),
    }
}

// What the tokens of a text say.
fn answer(
    alloc: Global,
    c: &Context<'_>,
    text: &[u8],
    tokens: &[Token<'_>],
) -> Result<Effects, TextFault>
    requires context { IsContext (context_of c.now) }
    requires lexes { Lexes text.now (tokens_of tokens.now) }
    ensures { Outcome (context_of c.now) text.now result }
{
    match reading(alloc, c, tokens) {
        Ok(Some(list)) => transfer_of(list),
        Ok(None) => Err(TextFault::IllFormed),
        Err(trouble) => Err(fault(tokens, trouble)),
    }
}

fn read(alloc: Global, c: &Context<'_>, text: &[u8]) -> Result<Effects, TextFault>
    requires { IsContext (context_of c.now) }
    ensures { Outcome (context_of c.now) text.now result }
{
    let tokens = lex(alloc, text)?;
    answer(alloc, c, text, tokens.as_slice())
}

/// The transfer that a text spells. No name may stand in both lists of `n`.
///
/// Where the text spells none, the fault is the first of `TextFault::BadToken`, the lesser place of `TextFault::BadForm` and
/// `TextFault::TooDeep`, of which the former goes first, and `TextFault::IllFormed`.
pub fn read_transfer<W: Word>(alloc: Global, text: &[u8], n: &Names) -> Result<Effects, TextFault>
    requires apart { AreApart n.now.objects n.now.functions }
    ensures found { IfOk result (λ e. TextSays (reading_context W.BITS n.now []) text.now e) }
    ensures printable { IfOk result (λ e. IsPrintable (printing_context W.BITS n.now) e) }
    ensures refused { IfErr result (Refuses (reading_context W.BITS n.now []) text.now) }
    ensures only { (ss : List Said) → SpellsText (reading_context W.BITS n.now []) text.now ss → Tells ss result }
{
    let holes = Vec::new(alloc);
    read_holed::<W>(alloc, text, n, &holes)
}

/// The transfer that a text spells in which `<h>` may also stand for a place or a tree, for each hole h of `holes`; the leaf of the
/// hole is put there. The same as `read_transfer` but for that; an `<h>` that `holes` lacks is `TextFault::BadForm` at its `<`, and a
/// leaf that stands as a place and can't be one is `TextFault::IllFormed`.
pub fn read_holed<W: Word>(
    alloc: Global,
    text: &[u8],
    n: &Names,
    holes: &Vec<OpenHole>,
) -> Result<Effects, TextFault>
    requires apart { AreApart n.now.objects n.now.functions }
    ensures found { IfOk result (λ e. TextSays (reading_context W.BITS n.now holes.now.items) text.now e) }
    ensures refused { IfErr result (Refuses (reading_context W.BITS n.now holes.now.items) text.now) }
    ensures only { (ss : List Said) → SpellsText (reading_context W.BITS n.now holes.now.items) text.now ss → Tells ss result }
{
    let _ = n.objects.len();
    let _ = n.functions.len();
    let c = Context {
        bits: W::BITS,
        names: n,
        holes: holes.as_slice(),
    };
    read(alloc, &c, text)
}
