//! The bytes of marks and words.

ghost use Rattle.std.specs.Prelude.{◌≡◌};
ghost use Rattle.rtl_spelling.specs.Spelling;
ghost use Rattle.rtl_spelling.specs.Tokens;
ghost use Rattle.rtl_spelling.specs.Tokens.{spelling};

use rtl_spelling::Sign;
use rtl_tree::{BinOp, UnOp, Width};
use rtl_word::Rel;

/// The bytes of a mark; none for the end of a text.
pub fn sign_bytes(sign: Sign) -> &'static [u8]
    ensures { result.now ≡ Tokens.sign_bytes sign }
{
    match sign {
        Sign::Space => b" ",
        Sign::LeftBracket => b"[",
        Sign::RightBracket => b"]",
        Sign::LeftParen => b"(",
        Sign::RightParen => b")",
        Sign::Semicolon => b";",
        Sign::Equals => b"=",
        Sign::Plus => b"+",
        Sign::Minus => b"-",
        Sign::Star => b"*",
        Sign::Ampersand => b"&",
        Sign::Bar => b"|",
        Sign::Caret => b"^",
        Sign::Question => b"?",
        Sign::Less => b"<",
        Sign::Greater => b">",
        Sign::Arrow => b"->",
        Sign::End => b"",
    }
}

pub(crate) fn relation_word(relation: Rel) -> &'static [u8]
    ensures { result.now ≡ Spelling.relation_word relation }
{
    match relation {
        Rel::Eq => b"eq",
        Rel::Ne => b"ne",
        Rel::Lt => b"lt",
        Rel::Le => b"le",
        Rel::Gt => b"gt",
        Rel::Ge => b"ge",
        Rel::Ltu => b"ltu",
        Rel::Leu => b"leu",
        Rel::Gtu => b"gtu",
        Rel::Geu => b"geu",
    }
}

pub(crate) fn unary_word(operator: UnOp) -> &'static [u8]
    ensures { result.now ≡ Spelling.unary_word operator }
{
    match operator {
        UnOp::Neg => b"neg",
        UnOp::Not => b"not",
        UnOp::Sxb => b"sxb",
        UnOp::Test(relation) => relation_word(relation),
    }
}

pub(crate) fn memory_word(width: Width) -> &'static [u8]
    ensures { result.now ≡ Spelling.memory_word width }
{
    match width {
        Width::Full => b"M",
        Width::Byte => b"B",
    }
}

/// The bytes of an operator that stands between two trees.
pub(crate) fn operator_bytes(operator: BinOp) -> &'static [u8]
    ensures { result.now ≡ spelling (Spelling.operator_token operator) }
{
    match operator {
        BinOp::Add => b"+",
        BinOp::Sub => b"-",
        BinOp::Mul => b"*",
        BinOp::Div => b"div",
        BinOp::Divu => b"divu",
        BinOp::Rem => b"rem",
        BinOp::Remu => b"remu",
        BinOp::And => b"&",
        BinOp::Or => b"|",
        BinOp::Xor => b"^",
        BinOp::Shl => b"shl",
        BinOp::Shr => b"shr",
        BinOp::Shru => b"shru",
        BinOp::Cmp(relation) => relation_word(relation),
        BinOp::Pair => b"?",
        BinOp::When => b"->",
    }
}
