//! What a token says of a hole.

ghost use Rattle.std.specs.Prelude.{◌≡◌, ◌<◌, ◌^◌, ◌-◌, ◌↔◌, ℕ, pos, negsuc, IsTrue, List, MatchOption, Some};
ghost use Rattle.rtl_word.specs.Words.{IsWordSize};
ghost use Rattle.asm_token.specs.Seen.{token_of};
ghost use Rattle.asm_token.specs.Tokens.{Name as NameToken};
ghost use Rattle.md_rows.specs.Fits.{printed, turned};
ghost use Rattle.md_rows.specs.Instances.{register_name};
ghost use Rattle.md_rows.specs.declared.row.Hole.TheVariants.{Reg as RegHole, Num as NumHole, Sym as SymHole, Label as LabelHole};
ghost use Rattle.asm_row.specs.Reading.{Reads, Value as SpecValue};
ghost use Rattle.asm_row.specs.Found.{IsBlockName, IsCandidate, HasNumberAmong, IsDecimal, IsNumberToken, IsRegister, IsSymbolOf, IsWordOf, value_of};

use crate::registers::register_name;
use asm_token::token::{Token, token_at};
use md_match::has_bit;
use md_rows::{Hole, RawDescription, Register, number_of_word};
use rtl_tree::is_name;

/// What stands in a hole. An object or a function is told by its name.
#[derive(Clone, Copy, Debug, PartialEq, Eq)]
pub enum Value<'a> {
    Register(u8),
    Number(u32),
    Object(&'a [u8]),
    Block(u32),
    Function(&'a [u8]),
}

/// The number 0, which fills the places of a list that are not in use.
impl Default for Value<'_> {
    fn default() -> Self {
        Value::Number(0)
    }
}

fn is_of(registers: &[Register], class: u64, register: &Register, name: &[u8]) -> bool
    ensures { IsTrue result ↔ IsRegister registers.now class name.now register.now.number }
{
    register.number < 64
        && has_bit(class, register.number)
        && has_name(registers, register.number, name)
}

fn has_name(registers: &[Register], number: u8, name: &[u8]) -> bool
    ensures { IsTrue result ↔ (register_name registers.now number ≡ Some name.now) }
{
    match register_name(registers, number) {
        Some(known) => known == name,
        None => false,
    }
}

// The number of a register of a class that has a name, among some of the registers.
fn register_among(all: &[Register], some: &[Register], class: u64, name: &[u8]) -> Option<u8>
    ensures { MatchOption result ((k : ℕ) → HasNumberAmong k some.now → IsRegister all.now class name.now k → ⊥) (λ k. IsRegister all.now class name.now k) }
{
    match some {
        [] => None,
        [register, rest @ ..] => {
            if is_of(all, class, register, name) {
                Some(register.number)
            } else {
                register_among(all, rest, class, name)
            }
        }
    }
}

// The number of the register of a class that has a name.
fn register_named(registers: &[Register], class: u64, name: &[u8]) -> Option<u8>
    ensures { MatchOption result ((k : ℕ) → IsRegister registers.now class name.now k → ⊥) (λ k. IsRegister registers.now class name.now k) }
{
    register_among(registers, registers, class, name)
}

fn words(bits: u32) -> u64
    requires size { IsWordSize bits }
    ensures { result ≡ 2 ^ bits }
{
    if bits == 16 { 0x1_0000 } else { 0x1_0000_0000 }
}

// The word of a number from 0 on.
fn word_above(bits: u32, size: u64) -> Option<u32>
    requires size { IsWordSize bits }
    ensures { MatchOption result ((t : ℕ) → IsCandidate bits (pos size) t → ⊥) (λ t. IsCandidate bits (pos size) t) }
{
    if size < words(bits) {
        Some(size as u32)
    } else {
        None
    }
}

// The word of a number below 0, which is 2 to the bits more.
fn word_below(bits: u32, size: u64) -> Option<u32>
    requires size { IsWordSize bits }
    requires some { 0 < size }
    ensures { MatchOption result ((t : ℕ) → IsCandidate bits (negsuc (size - 1)) t → ⊥) (λ t. IsCandidate bits (negsuc (size - 1)) t) }
{
    let words = words(bits);
    if size <= words {
        Some((words - size) as u32)
    } else {
        None
    }
}

// The word that is the number, or less by 2 to the bits.
fn candidate(bits: u32, number: i64) -> Option<u32>
    requires size { IsWordSize bits }
    ensures { MatchOption result ((t : ℕ) → IsCandidate bits number t → ⊥) (λ t. IsCandidate bits number t) }
{
    let size = number.unsigned_abs();
    if number < 0 {
        word_below(bits, size)
    } else {
        word_above(bits, size)
    }
}

fn turned(bits: u32, inverted: bool, word: u32) -> u32
    requires size { IsWordSize bits }
    requires word { word < 2 ^ bits }
    ensures value { result ≡ turned bits inverted word }
    ensures word { result < 2 ^ bits }
{
    if !inverted {
        word
    } else if bits == 16 {
        0xffff - word
    } else {
        0xffff_ffff - word
    }
}

fn prints(bits: u32, low: i64, high: i64, inverted: bool, word: u32, number: i64) -> bool
    requires size { IsWordSize bits }
    requires word { word < 2 ^ bits }
    ensures { IsTrue result ↔ (printed bits low high inverted word ≡ Some number) }
{
    match number_of_word(bits, low, high, inverted, word) {
        Some(shown) => shown == number,
        None => false,
    }
}

fn if_printed(bits: u32, low: i64, high: i64, inverted: bool, word: u32, number: i64) -> Option<u32>
    requires size { IsWordSize bits }
    requires word { word < 2 ^ bits }
    ensures { MatchOption result (printed bits low high inverted word ≡ Some number → ⊥) (λ v. (v ≡ word) × (printed bits low high inverted word ≡ Some number)) }
{
    if prints(bits, low, high, inverted, word, number) {
        Some(word)
    } else {
        None
    }
}

// The word for which a hole prints a number.
fn word_of_number(bits: u32, low: i64, high: i64, inverted: bool, number: i64) -> Option<u32>
    requires size { IsWordSize bits }
    ensures { MatchOption result ((v : ℕ) → IsWordOf bits low high inverted number v → ⊥) (λ v. IsWordOf bits low high inverted number v) }
{
    match candidate(bits, number) {
        Some(word) => {
            let word = turned(bits, inverted, word);
            if_printed(bits, low, high, inverted, word, number)
        }
        None => None,
    }
}

fn number_of(token: Token<'_>) -> Option<u32>
    ensures { MatchOption result ((n : ℕ) → IsNumberToken (token_of token.entry) n → ⊥) (λ n. IsNumberToken (token_of token.entry) n) }
{
    match token {
        Token::Number(number) => u32::try_from(number).ok(),
        _ => None,
    }
}

// The number that a text is, with no leading zeros.
fn number_in(text: &[u8]) -> Option<u32>
    ensures { MatchOption result ((n : ℕ) → IsDecimal text.now n → ⊥) (λ n. IsDecimal text.now n) }
{
    match token_at(text) {
        Some((token, length)) => {
            if length == text.len() {
                number_of(token)
            } else {
                None
            }
        }
        None => None,
    }
}

/// The number of a block, of which a name is the label.
pub fn block_in(name: &[u8]) -> Option<u32>
    ensures { MatchOption result ((b : ℕ) → IsBlockName name.now b → ⊥) (λ b. IsBlockName name.now b) }
{
    match name {
        [b'L', digits @ ..] => number_in(digits),
        _ => None,
    }
}

/// The C name that a name is behind an underscore.
pub fn symbol_in(name: &[u8]) -> Option<&[u8]>
    ensures { MatchOption result ((s : List ℕ) → IsSymbolOf name.now s → ⊥) (λ s. IsSymbolOf name.now s.now) }
{
    match name {
        [b'_', symbol @ ..] if is_name(symbol) => Some(symbol),
        _ => None,
    }
}

fn read_register<'a>(d: &RawDescription, class: u64, token: Token<'a>) -> Option<Value<'a>>
    ensures { MatchOption result ((v : SpecValue) → Reads d.now.word d.now.registers (RegHole class) (token_of token.entry) v → ⊥) (λ v. Reads d.now.word d.now.registers (RegHole class) (token_of token.entry) (value_of v)) }
{
    let Token::Name(name) = token else {
        return None;
    };
    match register_named(d.registers.as_slice(), class, name) {
        Some(number) => Some(Value::Register(number)),
        None => None,
    }
}

fn read_number<'a>(
    d: &RawDescription,
    low: i64,
    high: i64,
    inverted: bool,
    token: Token<'a>,
) -> Option<Value<'a>>
    requires size { IsWordSize d.now.word }
    ensures { MatchOption result ((v : SpecValue) → Reads d.now.word d.now.registers (NumHole low high inverted) (token_of token.entry) v → ⊥) (λ v. Reads d.now.word d.now.registers (NumHole low high inverted) (token_of token.entry) (value_of v)) }
{
    let Token::Number(number) = token else {
        return None;
    };
    match word_of_number(d.word, low, high, inverted, number) {
        Some(word) => Some(Value::Number(word)),
        None => None,
    }
}

fn read_symbol<'a>(d: &RawDescription, token: Token<'a>) -> Option<Value<'a>>
    ensures { MatchOption result ((v : SpecValue) → Reads d.now.word d.now.registers SymHole (token_of token.entry) v → ⊥) (λ v. Reads d.now.word d.now.registers SymHole (token_of token.entry) (value_of v)) }
{
    let Token::Name(name) = token else {
        return None;
    };
    match symbol_in(name) {
        Some(object) => Some(Value::Object(object)),
        None => None,
    }
}

fn label_in<'a>(d: &RawDescription, name: &'a [u8]) -> Option<Value<'a>>
    ensures { MatchOption result ((v : SpecValue) → Reads d.now.word d.now.registers LabelHole (NameToken name.now) v → ⊥) (λ v. Reads d.now.word d.now.registers LabelHole (NameToken name.now) (value_of v)) }
{
    match symbol_in(name) {
        Some(function) => Some(Value::Function(function)),
        None => match block_in(name) {
            Some(block) => Some(Value::Block(block)),
            None => None,
        },
    }
}

fn read_label<'a>(d: &RawDescription, token: Token<'a>) -> Option<Value<'a>>
    ensures { MatchOption result ((v : SpecValue) → Reads d.now.word d.now.registers LabelHole (token_of token.entry) v → ⊥) (λ v. Reads d.now.word d.now.registers LabelHole (token_of token.entry) (value_of v)) }
{
    match token {
        Token::Name(name) => label_in(d, name),
        _ => None,
    }
}

/// What a token says of a hole.
pub(crate) fn read_hole<'a>(d: &RawDescription, hole: Hole, token: Token<'a>) -> Option<Value<'a>>
    requires size { IsWordSize d.now.word }
    ensures { MatchOption result ((v : SpecValue) → Reads d.now.word d.now.registers hole (token_of token.entry) v → ⊥) (λ v. Reads d.now.word d.now.registers hole (token_of token.entry) (value_of v)) }
{
    match hole {
        Hole::Reg(class) => read_register(d, class, token),
        Hole::Num {
            low,
            high,
            inverted,
        } => read_number(d, low, high, inverted, token),
        Hole::Sym => read_symbol(d, token),
        Hole::Label => read_label(d, token),
    }
}
