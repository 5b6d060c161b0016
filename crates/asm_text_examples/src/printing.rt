//! Texts that are read and printed.

ghost use Rattle.asm_program.specs.Programs.{IsText};

use asm_print::law::texts_are_printable;
use asm_print::print_text;
use asm_program::Program;
use asm_text::read_text;
use md_check::Checked;
use rtl_word::Word;
use std::alloc::Global;

fn printed<W: Word>(alloc: Global, m: &Checked<W>, p: &Program, text: &[u8]) -> Option<Vec<u8>>
    requires text { IsText m.now text.now p.now }
{
    texts_are_printable();
    let _ = (p.names.objects.len(), p.names.functions.len());
    let _ = m.raw();
    print_text::<W>(alloc, m, p).ok()
}

/// The text that is printed of a text's program; none where it has no program, or there is no memory.
pub fn reprinted<W: Word>(alloc: Global, m: &Checked<W>, text: &[u8]) -> Option<Vec<u8>> {
    let Ok(p) = read_text::<W>(alloc, m, text) else {
        return None;
    };
    printed::<W>(alloc, m, &p, text)
}
