//! What the holes of a text are for.

ghost use Rattle.std.specs.Prelude.{ℤ, IfSome, IfNone};
ghost use Rattle.md_text.specs.Pieces.{Range as SpelledRange, Between, Kind as SpelledKind, Slot as SpelledSlot};
ghost use Rattle.md_lines.specs.Fields.{IsRangeText, IsKindText, IsSlotText, IsPlain};
ghost use Rattle.md_lines.specs.Seen.{range_of, kind_of, slot_of};

use crate::fields::{is_name, number};
use crate::splits::{after_word, split_at_byte};

/// The numbers that a hole prints: those of a word with its sign, or those from the first to the second.
#[derive(Clone, Copy, Debug, PartialEq, Eq)]
pub enum Range {
    OfWord,
    Between(i64, i64),
}

/// What a hole is for.
#[derive(Clone, Copy, Debug, PartialEq, Eq)]
pub enum Kind<'a> {
    /// A class or a mode.
    Named(&'a [u8]),
    /// Numbers, whose complement is meant where they are inverted.
    Numbers { inverted: bool, range: Range },
    Symbols,
    Labels,
}

/// A hole of a text.
#[derive(Clone, Copy, Debug, PartialEq, Eq)]
pub struct Slot<'a> {
    pub name: &'a [u8],
    pub kind: Kind<'a>,
}

/// The range whose ends stand round `..`.
fn between(text: &[u8]) -> Option<Range>
    ensures found { IfSome result (λ range. IsRangeText text.now (range_of range)) }
    ensures none { IfNone result ((low high : ℤ) → IsRangeText text.now (Between low high) → ⊥) }
{
    let (low, rest) = split_at_byte(text, b'.')?;
    let high = after_word(rest, b".")?;
    let low = number(low)?;
    let high = number(high)?;
    Some(Range::Between(low, high))
}

/// The range that the text is.
fn read_range(text: &[u8]) -> Option<Range>
    ensures found { IfSome result (λ range. IsRangeText text.now (range_of range)) }
    ensures none { IfNone result ((range : SpelledRange) → IsRangeText text.now range → ⊥) }
{
    if text == b"word".as_slice() {
        Some(Range::OfWord)
    } else {
        between(text)
    }
}

/// The kind that the text is, where it isn't inverted.
fn plain_kind(text: &[u8]) -> Option<Kind<'_>>
    ensures found { IfSome result (λ kind. IsKindText text.now (kind_of kind)) }
    ensures none { IfNone result ((kind : SpelledKind) → IsKindText text.now kind → IsPlain kind → ⊥) }
{
    if text == b"sym".as_slice() {
        return Some(Kind::Symbols);
    }
    if text == b"label".as_slice() {
        return Some(Kind::Labels);
    }
    if let Some(range) = read_range(text) {
        return Some(Kind::Numbers {
            inverted: false,
            range,
        });
    }
    if is_name(text) {
        Some(Kind::Named(text))
    } else {
        None
    }
}

/// The kind of hole that the text is.
fn read_kind(text: &[u8]) -> Option<Kind<'_>>
    ensures found { IfSome result (λ kind. IsKindText text.now (kind_of kind)) }
    ensures none { IfNone result ((kind : SpelledKind) → IsKindText text.now kind → ⊥) }
{
    match after_word(text, b"!") {
        Some(rest) => {
            let range = read_range(rest)?;
            Some(Kind::Numbers {
                inverted: true,
                range,
            })
        }
        None => plain_kind(text),
    }
}

/// The hole that the text is, without `<` and `>`.
pub fn read_slot(text: &[u8]) -> Option<Slot<'_>>
    ensures found { IfSome result (λ h. IsSlotText text.now (slot_of h)) }
    ensures none { IfNone result ((h : SpelledSlot) → IsSlotText text.now h → ⊥) }
{
    let (name, rest) = split_at_byte(text, b':')?;
    let kind = read_kind(rest)?;
    if is_name(name) {
        Some(Slot { name, kind })
    } else {
        None
    }
}
