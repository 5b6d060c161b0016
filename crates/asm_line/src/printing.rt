//! The writing of a line.

ghost use Rattle.std.specs.Prelude.{◌≡◌, ◌≤◌, All, IsTrue, [], is_some};
ghost use Rattle.rtl_word.specs.Words.{IsWordSize};
ghost use Rattle.md_rows.specs.declared.row.Row.{Row as Line};
ghost use Rattle.md_rows.specs.Lines.{longest_line};
ghost use Rattle.md_rows.specs.Instances.{AllFit, IsInstance, general_set};
ghost use Rattle.asm_row.specs.Line.{IsNamed, IsWritten};
ghost use Rattle.asm_line.specs.Shown.{IsReady, IsRowWritten, token_in, tokens_in};
ghost use Rattle.asm_line.specs.Spacing.{line_from};

use crate::law::checked_is_readable;
use crate::line::LineBuf;
use crate::shown::of_piece;
use crate::writing::{Before, push_token};
use asm_row::row_at;
use md_check::Checked;
use md_rows::{Bound, Instance, RawDescription, Row};
use rtl_tree::Names;
use rtl_word::Word;

fn push_tokens(out: &mut LineBuf, d: &RawDescription, names: &Names, row: &Row, binding: &[Bound])
    requires empty { out.old ≡ [] }
    requires size { IsWordSize d.now.word }
    requires short { longest_line d.now.registers row.now.holes row.now.text ≤ 640 }
    requires fit { AllFit d.now.word (general_set d.now.registers) row.now.holes binding.now }
    requires some { All (λ p. IsTrue (is_some (token_in d.now names.now row.now binding.now p))) row.now.text }
    ensures { out.new ≡ line_from Before.Start (tokens_in d.now names.now row.now binding.now row.now.text) }
{
    let mut before = Before::Start;
    for piece in row.text.as_slice() {
        before = push_token(out, before, of_piece(d, names, row, binding, piece));
    }
}

fn print_row(out: &mut LineBuf, d: &RawDescription, names: &Names, row: &Row, binding: &[Bound])
    requires empty { out.old ≡ [] }
    requires ready { IsReady d.now names.now row.now binding.now }
    ensures { IsRowWritten d.now names.now row.now binding.now out.new }
{
    push_tokens(out, d, names, row, binding);
}

/// Writes the line of an instance of the description, in place of what the line was. Takes no memory.
pub fn print_line<W: Word>(m: &Checked<W>, i: &Instance, n: &Names, out: &mut LineBuf)
    requires instance { (row : Line) × IsInstance m.now i.now row }
    requires named { All (IsNamed n.now) i.now.binding }
    ensures { IsWritten m.now n.now i.now out.new }
{
    checked_is_readable();
    let d = m.raw();
    out.clear();
    print_row(out, d, n, row_at(d, i.row), i.binding.list.as_slice());
}
