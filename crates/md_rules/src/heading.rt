//! The heading, and the ranges of numbers.

ghost use Rattle.std.specs.Prelude.{◌≡◌, ◌-◌, ◌^◌, ◌<◌, ℤ, pos, negsuc, not, int_le, nat_lt, ◌&&◌, IsTrue};
ghost use Rattle.std.specs.Int.{int_gap};
ghost use Rattle.std.specs.List.{list_any};
ghost use Rattle.rtl_word.specs.Words.{IsWordSize};
ghost use Rattle.md_text.specs.Heading.{place_in_heading, breaks_heading, is_word_size, is_whole, is_from_to, most_memory, leaves_room, is_legal_range, is_legal_kind, has_bad_range, is_out_of_range};
ghost use Rattle.md_text.specs.Declarations.{memory_in, data_in};
ghost use Rattle.md_forms.specs.Seen.{range_of, kind_of, piece_of, pieces_of, form_of, declarations_of};
ghost use Rattle.md_rules.specs.Slots.{is_slot_with};

use md_forms::{Declaration, Form, Kind, Piece, Range};

/// The place of a form in the heading, and 6 for what stands behind it.
fn place_in_heading(form: &Form) -> usize
    ensures { result ≡ place_in_heading (form_of form.now) }
{
    match form {
        Form::Version => 0,
        Form::MachineName(_) => 1,
        Form::WordBits(_) => 2,
        Form::MemorySize(_) => 3,
        Form::DataBegin(_) => 4,
        Form::StackSize(_) => 5,
        _ => 6,
    }
}

/// Whether a form behind these declarations breaks the order of the heading, or stands there again.
pub fn breaks_heading(before: &[Declaration], form: &Form) -> bool
    ensures { result ≡ breaks_heading (declarations_of before.now) (form_of form.now) }
{
    place_in_heading(form) != before.len().min(6)
}

/// The first size of memory, and 0 where none is given.
fn memory_in(before: &[Declaration]) -> u64
    ensures { result ≡ memory_in (declarations_of before.now) }
{
    for declaration in before {
        if let Form::MemorySize(number) = &declaration.form {
            return number.unsigned_abs();
        }
    }
    0
}

/// The first address of data, and 0 where none is given.
fn data_in(before: &[Declaration]) -> u64
    ensures { result ≡ data_in (declarations_of before.now) }
{
    for declaration in before {
        if let Form::DataBegin(number) = &declaration.form {
            return number.unsigned_abs();
        }
    }
    0
}

fn is_word_size(number: i64) -> bool
    ensures { result ≡ is_word_size number }
{
    number == 16 || number == 32
}

fn is_whole(width: u32, number: i64) -> bool
    requires { IsWordSize width }
    ensures { result ≡ is_whole width number }
{
    number >= 0 && number.unsigned_abs() % u64::from(width / 8) == 0
}

fn is_from_to(low: u32, high: u32, number: i64) -> bool
    ensures { result ≡ is_from_to low high number }
{
    i64::from(low) <= number && number <= i64::from(high)
}

fn most_memory(width: u32) -> u32
    ensures { result ≡ most_memory width }
{
    if width == 16 { 65_534 } else { 16_777_216 }
}

/// Whether data and stack leave some memory between them.
fn leaves_room(before: &[Declaration], stack: i64) -> bool
    ensures { result ≡ leaves_room (declarations_of before.now) stack }
{
    let memory = memory_in(before);
    let data = data_in(before);
    data < memory && stack.unsigned_abs() < memory - data
}

/// The least number that a word is read as, with its sign.
fn least(width: u32) -> i64
    requires { IsWordSize width }
    ensures { result ≡ negsuc (2 ^ (width - 1) - 1) }
{
    if width == 16 { -0x8000 } else { -0x8000_0000 }
}

/// The greatest number that a word is read as, without a sign.
fn greatest(width: u32) -> i64
    requires { IsWordSize width }
    ensures { result ≡ pos (2 ^ width - 1) }
{
    if width == 16 { 0xffff } else { 0xffff_ffff }
}

/// Whether a range has no end that no word is read as.
fn is_of_words(width: u32, low: i64, high: i64) -> bool
    requires { IsWordSize width }
    ensures { result ≡ (int_le low high && (int_le (negsuc (2 ^ (width - 1) - 1)) low && int_le high (pos (2 ^ width - 1)))) }
{
    low <= high && least(width) <= low && high <= greatest(width)
}

/// Whether a range has no more numbers than there are words.
fn is_narrow(width: u32, low: i64, high: i64) -> bool
    requires width { IsWordSize width }
    requires ordered { IsTrue (int_le low high) }
    requires least { IsTrue (int_le (negsuc (2 ^ (width - 1) - 1)) low) }
    requires greatest { IsTrue (int_le high (pos (2 ^ width - 1))) }
    ensures { result ≡ nat_lt (int_gap low high) (2 ^ width) }
{
    high - low <= greatest(width)
}

fn is_legal_range(width: u32, range: Range) -> bool
    requires { IsWordSize width }
    ensures { result ≡ is_legal_range width (range_of range) }
{
    match range {
        Range::OfWord => true,
        Range::Between(low, high) => {
            if is_of_words(width, low, high) {
                is_narrow(width, low, high)
            } else {
                false
            }
        }
    }
}

fn is_legal_kind(width: u32, kind: &Kind) -> bool
    requires { IsWordSize width }
    ensures { result ≡ is_legal_kind width (kind_of kind.now) }
{
    match kind {
        Kind::Numbers { range, .. } => is_legal_range(width, *range),
        _ => true,
    }
}

fn is_slot_out_of_range(width: u32, piece: &Piece) -> bool
    requires { IsWordSize width }
    ensures { result ≡ is_slot_with (λ h. not (is_legal_kind width h.kind)) (piece_of piece.now) }
{
    match piece {
        Piece::Hole(slot) => !is_legal_kind(width, &slot.kind),
        _ => false,
    }
}

fn any_slot_out_of_range(width: u32, text: &[Piece]) -> bool
    requires { IsWordSize width }
    ensures { result ≡ list_any (λ p. is_slot_with (λ h. not (is_legal_kind width h.kind)) (piece_of p)) text.now }
{
    text.iter().any(|piece| is_slot_out_of_range(width, piece))
}

fn has_bad_range(width: u32, text: &[Piece]) -> bool
    requires { IsWordSize width }
    ensures { result ≡ has_bad_range width (pieces_of text.now) }
{
    any_slot_out_of_range(width, text)
}

/// Whether a number of a form behind these declarations is out of its range.
pub fn is_out_of_range(width: u32, before: &[Declaration], form: &Form) -> bool
    requires { IsWordSize width }
    ensures { result ≡ is_out_of_range width (declarations_of before.now) (form_of form.now) }
{
    match form {
        Form::WordBits(number) => !is_word_size(*number),
        Form::MemorySize(number) => {
            !(is_whole(width, *number) && is_from_to(4096, most_memory(width), *number))
        }
        Form::DataBegin(number) => !is_whole(width, *number),
        Form::StackSize(number) => {
            !(is_whole(width, *number)
                && is_from_to(1024, 1_048_576, *number)
                && leaves_room(before, *number))
        }
        Form::RegisterLine { number, .. } => !is_from_to(0, 63, *number),
        Form::FlagLine { number, .. } => !is_from_to(0, 7, *number),
        Form::ModeLine { text, .. } => has_bad_range(width, text.as_slice()),
        Form::RowLine { text, .. } => has_bad_range(width, text.as_slice()),
        _ => false,
    }
}
