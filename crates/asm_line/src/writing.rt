//! Tokens with the spaces between them.

ghost use Rattle.std.specs.Prelude.{◌≡◌, ◌+◌, ◌≤◌, [], ◌∷◌, ◌++◌, length, if◌then◌else◌};
ghost use Rattle.asm_token.specs.Tokens.{spelling};
ghost use Rattle.asm_token.specs.Line.{is_word};
ghost use Rattle.asm_line.specs.Shown.{token_of};
ghost use Rattle.asm_line.specs.Spacing.{next_before, separator};

use crate::line::LineBuf;
use crate::shown::Shown;
use itoa::Buffer;

/// What stands before a token in its line.
#[derive(Clone, Copy, Debug, PartialEq, Eq)]
pub(crate) enum Before {
    Start,
    FirstToken,
    /// A name or a number, behind the first token.
    Word,
    /// A mark, behind the first token.
    Mark,
}

fn is_word(token: Shown<'_>) -> bool
    ensures { result ≡ is_word (token_of token.entry) }
{
    !matches!(token, Shown::Mark(_))
}

fn needs_space(before: Before, token: Shown<'_>) -> bool
    ensures { (if result then 32 ∷ [] else []) ≡ separator before (token_of token.entry) }
{
    match before {
        Before::Start | Before::Mark => false,
        Before::FirstToken => true,
        Before::Word => is_word(token),
    }
}

fn behind(before: Before, token: Shown<'_>) -> Before
    ensures { result ≡ next_before before (token_of token.entry) }
{
    match before {
        Before::Start => Before::FirstToken,
        Before::FirstToken | Before::Word | Before::Mark => {
            if is_word(token) {
                Before::Word
            } else {
                Before::Mark
            }
        }
    }
}

fn spell(out: &mut LineBuf, token: Shown<'_>)
    requires room { length out.old + length (spelling (token_of token)) ≤ 640 }
    ensures { out.new ≡ out.old ++ spelling (token_of token.entry) }
{
    let mut buffer = Buffer::new();
    match token {
        Shown::Name(name) => out.push_all(name),
        Shown::Symbol(name) => {
            out.push(b'_');
            out.push_all(name);
        }
        Shown::Block(number) => {
            out.push(b'L');
            out.push_all(buffer.format(number).as_bytes());
        }
        Shown::Number(number) => out.push_all(buffer.format(number).as_bytes()),
        Shown::Mark(mark) => out.push(mark),
    }
}

/// Appends a token, with a space before it where one is due, and tells what then stands before the next.
pub(crate) fn push_token(out: &mut LineBuf, before: Before, token: Shown<'_>) -> Before
    requires room { length out.old + length (separator before (token_of token)) + length (spelling (token_of token)) ≤ 640 }
    ensures line { out.new ≡ out.old ++ (separator before (token_of token.entry) ++ spelling (token_of token.entry)) }
    ensures next { result ≡ next_before before (token_of token.entry) }
{
    if needs_space(before, token) {
        out.push(b' ');
    }
    spell(out, token);
    behind(before, token)
}
