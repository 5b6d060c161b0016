//! The parts of bytes round a byte.

ghost use Rattle.std.specs.Prelude.{◌≡◌, ◌≢◌, ◌==◌, ℕ, List, ◌++◌, IfSome, IfNone, MatchOption, IsTrue, position};
ghost use Rattle.md_text.specs.Lines.{lacks};
ghost use Rattle.md_lines.specs.Parts.{IsSplitAtByte, IsSplitAtBar};

/// Where the first byte of that value stands.
pub fn place_of(text: &[u8], byte: u8) -> Option<usize>
    ensures { result ≡ position (λ other. other == byte) text.now }
{
    text.iter().position(|other| *other == byte)
}

/// What stands before the first byte of that value, and what stands after it.
pub fn split_at_byte(text: &[u8], byte: u8) -> Option<(&[u8], &[u8])>
    ensures found { IfSome result (λ parts. IsSplitAtByte byte text.now parts.0.now parts.1.now) }
    ensures none { IfNone result (IsTrue (lacks byte text.now)) }
{
    let length = place_of(text, byte)?;
    Some((&text[..length], &text[length + 1..]))
}

/// What follows a prefix.
pub fn after_word<'a>(text: &'a [u8], word: &[u8]) -> Option<&'a [u8]>
    ensures { MatchOption result ((rest : List ℕ) → text.now ≢ word.now ++ rest) (λ rest. text.now ≡ word.now ++ rest.now) }
{
    text.strip_prefix(word)
}

/// What stands before an ending.
pub fn before_word<'a>(text: &'a [u8], word: &[u8]) -> Option<&'a [u8]>
    ensures { MatchOption result ((front : List ℕ) → text.now ≢ front ++ word.now) (λ front. text.now ≡ front.now ++ word.now) }
{
    text.strip_suffix(word)
}

/// What stands before the first ` | `, and what stands after it, where no other bar stands before it.
pub fn split_at_bar(text: &[u8]) -> Option<(&[u8], &[u8])>
    ensures found { IfSome result (λ parts. IsSplitAtBar text.now parts.0.now parts.1.now) }
    ensures none { IfNone result ((front back : List ℕ) → IsSplitAtBar text.now front back → ⊥) }
{
    let (before, after) = split_at_byte(text, b'|')?;
    let front = before_word(before, b" ")?;
    let back = after_word(after, b" ")?;
    Some((front, back))
}
