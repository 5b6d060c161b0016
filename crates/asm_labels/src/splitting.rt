//! The lines of a text, one after another.

ghost use Rattle.std.specs.Prelude.{◌≡◌, ◌<◌, ◌≤◌, ◌∷◌, length};
ghost use Rattle.std.specs.List.{prefix_len};
ghost use Rattle.asm_program.specs.TextLines.{lines_of};
ghost use Rattle.asm_labels.specs.Seen.{is_within_line};

fn is_within_line(byte: u8) -> bool
    ensures { result ≡ is_within_line byte }
{
    byte != b'\n'
}

fn line_length(text: &[u8]) -> usize
    ensures length { result ≡ prefix_len is_within_line text.now }
    ensures within { result ≤ length text.now }
{
    text.iter()
        .take_while(|byte| is_within_line(**byte))
        .count()
}

/// The first line, without its line feed, and what is behind it.
pub fn split_line(text: &[u8]) -> (&[u8], &[u8])
    requires some { 0 < length text.now }
    ensures lines { lines_of text.now ≡ result.0.now ∷ lines_of result.1.now }
    ensures shorter { length result.1.now < length text.now }
{
    let end = line_length(text);
    if end < text.len() {
        (&text[..end], &text[end + 1..])
    } else {
        text.split_at(end)
    }
}
