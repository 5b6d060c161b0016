//! A machine with the program of a text.

use asm_text::read_text;
use md_check::Checked;
use rtl_machine::Machine;
use rtl_machine::law::texts_are_loadable;
use rtl_word::W16;
use std::alloc::Global;

/// A machine before the first instruction of a text's program; none where the text has no program, or there is no memory.
pub fn loaded(alloc: Global, m: &Checked<W16>, text: &[u8]) -> Option<Machine<W16>> {
    texts_are_loadable();
    let _ = m.raw();
    let Ok(program) = read_text::<W16>(alloc, m, text) else {
        return None;
    };
    Machine::load(alloc, m, &program).ok()
}
