//! What a token says.

ghost use Rattle.std.specs.Prelude.{◌≡◌, ◌<◌, ◌^◌};
ghost use Rattle.rtl_word.specs.Words.{IsWordSize};
ghost use Rattle.rtl_spelling.specs.Senses;
ghost use Rattle.rtl_spelling.specs.Senses.{number_below, place_among};
ghost use Rattle.rtl_token.specs.Seen.{context_of, token_of};

use crate::context::Context;
use crate::number::{number_below, word_spelled};
use crate::token::Token;
use crate::words::keyword;
use rtl_spelling::{Bank, Sense, Sign};
use rtl_tree::{BinOp, Cell, Lab, NameList, Names};

fn place_among(list: &NameList, name: &[u8]) -> Option<u16>
    ensures { result ≡ place_among list.now name.now }
{
    let _ = list.len();
    list.find(name)
}

fn name_sense(names: &Names, name: &[u8]) -> Sense
    ensures { result ≡ Senses.name_sense (place_among names.now.objects name.now) (place_among names.now.functions name.now) }
{
    if let Some(place) = place_among(&names.objects, name) {
        return Sense::Object(place);
    }
    match place_among(&names.functions, name) {
        Some(place) => Sense::Label(Lab::Function(place)),
        None => Sense::Strange,
    }
}

fn block_sense(digits: &[u8]) -> Sense
    ensures { result ≡ Senses.block_sense (number_below (2 ^ 32) digits.now) }
{
    match number_below(1 << 32, digits) {
        Some(number) => Sense::Label(Lab::Block(number)),
        None => Sense::Strange,
    }
}

fn word_sense(c: &Context<'_>, word: &[u8]) -> Sense
    ensures { result ≡ Senses.word_sense (context_of c.now) word.now }
{
    match word {
        [] => Sense::Strange,
        [b'_', name @ ..] => name_sense(c.names, name),
        [b'L', digits @ ..] => block_sense(digits),
        _ => keyword(word),
    }
}

fn number_sense(bits: u32, bytes: &[u8]) -> Sense
    requires { IsWordSize bits }
    ensures { result ≡ Senses.number_sense (Senses.word_spelled bits bytes.now) }
{
    match word_spelled(bits, bytes) {
        Some(word) => Sense::Number(word),
        None => Sense::Strange,
    }
}

fn mark_sense(sign: Sign) -> Sense
    ensures { result ≡ Senses.mark_sense sign }
{
    match sign {
        Sign::Plus => Sense::Binary(BinOp::Add),
        Sign::Minus => Sense::Binary(BinOp::Sub),
        Sign::Star => Sense::Binary(BinOp::Mul),
        Sign::Ampersand => Sense::Binary(BinOp::And),
        Sign::Bar => Sense::Binary(BinOp::Or),
        Sign::Caret => Sense::Binary(BinOp::Xor),
        Sign::Question => Sense::Binary(BinOp::Pair),
        Sign::Arrow => Sense::Binary(BinOp::When),
        _ => Sense::Sign(sign),
    }
}

/// What a token says, wherever it stands.
pub fn sense_of(c: &Context<'_>, token: Token<'_>) -> Sense
    requires { IsWordSize c.now.bits }
    ensures { result ≡ Senses.sense_of (context_of c.now) (token_of token.entry) }
{
    match token {
        Token::Word(word) => word_sense(c, word),
        Token::Number(bytes) => number_sense(c.bits, bytes),
        Token::Mark(sign) => mark_sense(sign),
    }
}

fn bank_size(bank: Bank) -> u64
    ensures { result ≡ Senses.bank_size bank }
{
    match bank {
        Bank::Register => 64,
        Bank::Temporary => 65536,
        Bank::Flag => 8,
    }
}

fn bank_cell(bank: Bank, index: u32) -> Cell
    requires { index < Senses.bank_size bank }
    ensures { result ≡ Senses.bank_cell bank index }
{
    match bank {
        Bank::Register => Cell::Hard(index as u8),
        Bank::Temporary => Cell::Temp(index as u16),
        Bank::Flag => Cell::Flag(index as u8),
    }
}

/// The cell of a bank whose index the token is.
pub(crate) fn cell_at(bank: Bank, token: Token<'_>) -> Option<Cell>
    ensures { result ≡ Senses.cell_at bank (token_of token.entry) }
{
    let Token::Number(bytes) = token else {
        return None;
    };
    match number_below(bank_size(bank), bytes) {
        Some(index) => Some(bank_cell(bank, index)),
        None => None,
    }
}
