//! The tokens of a text.

ghost use Rattle.std.specs.Prelude.{List, IfOk, IsErrOf};
ghost use Rattle.rtl_spelling.specs.Tokens.{Token as Spelled, Lexes};
ghost use Rattle.rtl_text.specs.Seen.{tokens_of};

use crate::fault::OpenFault;
use rtl_text::{TextFault, Token, lex};
use std::alloc::Global;

/// The tokens of a whole text.
pub fn lexemes(alloc: Global, text: &[u8]) -> Result<Vec<Token<'_>>, OpenFault>
    ensures found { IfOk result (λ tokens. Lexes text.now (tokens_of tokens.items)) }
    ensures refused { IsErrOf result OpenFault.NoForm → (tokens : List Spelled) → Lexes text.now tokens → ⊥ }
{
    match lex(alloc, text) {
        Ok(tokens) => Ok(tokens),
        Err(TextFault::NoMemory) => Err(OpenFault::NoMemory),
        Err(TextFault::BadToken(_)) => Err(OpenFault::NoForm),
        Err(TextFault::BadForm(_)) => Err(OpenFault::NoForm),
        Err(TextFault::TooDeep(_)) => Err(OpenFault::NoForm),
        Err(TextFault::IllFormed) => Err(OpenFault::NoForm),
    }
}
