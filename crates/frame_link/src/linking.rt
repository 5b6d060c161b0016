//! The program of a unit.

ghost use Rattle.std.specs.Prelude.{◌≡◌, ◌<◌, IfOk, Some, length};
ghost use Rattle.md_covers.specs.Covers.{frame_in as frame_seen};
ghost use Rattle.md_shapes.specs.Shapes.{Frame as FrameOf};
ghost use Rattle.temp_code.specs.Routines.{main_name, number_in};
ghost use Rattle.asm_program.specs.Programs.{IsAssembled};
ghost use Rattle.asm_print.specs.Printable.{IsProgramFor};
ghost use Rattle.frame_link.specs.Linked.{IsLinkableUnit, IsLinkedBy};
ghost use Rattle.frame_link.specs.Tested.{assembled};

use crate::conditions::is_tested;
use crate::standing::standing_of;
use asm_program::Program;
use link_lines::{Written, linked_lines};
use md_check::Checked;
use md_said::said_is_sound;
use rtl_tree::{Names, NoMemory};
use rtl_word::Word;
use std::alloc::Global;
use temp_code::Unit;
use temp_shapes::ShapeRows;

fn main_number(names: &Names) -> u16
    requires { number_in names.now.functions main_name < length names.now.functions }
    ensures { result ≡ number_in names.now.functions main_name }
{
    let _count = names.functions.len();
    match names.functions.find(b"main") {
        Some(number) => number,
        None => unreachable!(),
    }
}

// The program of lines and labels, and of a unit's data and names.
fn program_of(alloc: Global, made: Written, u: Unit) -> Result<Program, NoMemory>
    requires { IsAssembled (assembled made.lines.items made.labels.items u) }
    ensures { IfOk result (λ p. p ≡ assembled made.lines.items made.labels.items u) }
{
    let symbols = Vec::from_slice(alloc, u.symbols.as_slice())?;
    let bytes = Vec::from_slice(alloc, u.bytes.as_slice())?;
    Ok(Program {
        lines: made.lines,
        labels: made.labels,
        symbols,
        bytes,
        names: u.names,
    })
}

/// The program of a unit without temporaries: the start, and then its codes in their order, each with its entry and its returns. The
/// unit's names become the program's. Want of memory is also the answer where the program isn't one that can be printed: where an
/// instruction names what isn't there, an address is no place of a word in the data, two labels are one, an object has a function's name,
/// or a limit of assembly texts is passed.
pub fn link_frames<W: Word>(alloc: Global, u: Unit, m: &Checked<W>) -> Result<Program, NoMemory>
    requires linkable { (frame : FrameOf) → frame_seen m.now ≡ Some frame → IsLinkableUnit m.now frame u }
    ensures linked { IfOk result (IsLinkedBy m.now u) }
    ensures printable { IfOk result (IsProgramFor m.now) }
{
    said_is_sound();
    let rows = ShapeRows::new::<W>(m);
    let main = main_number(&u.names);
    let made = linked_lines::<W>(alloc, m, &rows, &u, main)?;
    let standing = standing_of(alloc, made.labels.as_slice())?;
    let d = m.raw();
    if !is_tested(d, &u, &standing, &made) {
        return Err(NoMemory);
    }
    program_of(alloc, made, u)
}
