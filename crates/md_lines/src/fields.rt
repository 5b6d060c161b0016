//! The fields of a line.

ghost use Rattle.std.specs.Prelude.{◌≡◌, ◌≢◌, ◌↔◌, ℤ, IfSome, IfNone, IsTrue};
ghost use Rattle.asm_token.specs.Seen.{token_of};
ghost use Rattle.asm_token.specs.Tokens.{Token as Spelled, IsName};
ghost use Rattle.md_rows.specs.declared.description.Role.{Role as Named};
ghost use Rattle.md_text.specs.Forms.{role_word};
ghost use Rattle.md_lines.specs.Fields.{IsWholeToken, IsWholeNumber};

use asm_token::token::{Token, token_at};
use md_rows::Role;

/// The token that the text is.
fn whole_token(text: &[u8]) -> Option<Token<'_>>
    ensures found { IfSome result (λ token. IsWholeToken text.now (token_of token)) }
    ensures none { IfNone result ((t : Spelled) → IsWholeToken text.now t → ⊥) }
{
    let (token, length) = token_at(text)?;
    if length == text.len() {
        Some(token)
    } else {
        None
    }
}

/// Whether the text is a name.
pub fn is_name(text: &[u8]) -> bool
    ensures { IsTrue result ↔ IsName text.now }
{
    match whole_token(text) {
        Some(Token::Name(_)) => true,
        Some(Token::Number(_)) => false,
        Some(Token::Mark(_)) => false,
        None => false,
    }
}

/// The number that the text is.
pub fn number(text: &[u8]) -> Option<i64>
    ensures found { IfSome result (λ z. IsWholeNumber text.now z) }
    ensures none { IfNone result ((z : ℤ) → IsWholeNumber text.now z → ⊥) }
{
    match whole_token(text) {
        Some(Token::Number(number)) => Some(number),
        Some(Token::Name(_)) => None,
        Some(Token::Mark(_)) => None,
        None => None,
    }
}

/// The role that the text names.
pub fn role(text: &[u8]) -> Option<Role>
    ensures found { IfSome result (λ role. text.now ≡ role_word role) }
    ensures none { IfNone result ((role : Named) → text.now ≢ role_word role) }
{
    if text == b"general".as_slice() {
        Some(Role::General)
    } else if text == b"result".as_slice() {
        Some(Role::Result)
    } else if text == b"stack".as_slice() {
        Some(Role::Stack)
    } else if text == b"link".as_slice() {
        Some(Role::Link)
    } else if text == b"other".as_slice() {
        Some(Role::Other)
    } else {
        None
    }
}
