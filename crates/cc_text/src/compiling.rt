//! The assembly text of a source.

ghost use Rattle.std.specs.Prelude.{◌≤◌, IfOk, IfErr, length};
ghost use Rattle.md_verdict.specs.Verdict.{description_in};
ghost use Rattle.cc_text.specs.Sources.{Refuses};
ghost use Rattle.cc_text.specs.Texts.{IsCompiledTo};

use crate::sources::accepted_tree;
use asm_print::print_text;
use c_tree::CFault;
use md_check::Checked;
use md_verdict::Accepted;
use pass_driver::compile;
use rtl_word::{W16, W32, Word};
use std::alloc::Global;

fn compile_on<W: Word>(
    alloc: Global,
    m: &Checked<W>,
    source: &[u8],
    plain: bool,
) -> Result<Vec<u8>, CFault>
    requires { length source.now ≤ 4294967294 }
    ensures compiled { IfOk result (λ text. IsCompiledTo m.now source.now text.items) }
    ensures refused { IfErr result (Refuses m.now source.now) }
{
    let tree = match accepted_tree::<W>(alloc, m, source) {
        Ok(tree) => tree,
        Err(fault) => return Err(fault),
    };
    let Ok(compiled) = compile::<W>(alloc, &tree, m, plain) else {
        return Err(CFault::NoMemory);
    };
    match print_text::<W>(alloc, m, &compiled.program) {
        Ok(text) => Ok(text),
        Err(_) => Err(CFault::NoMemory),
    }
}

/// The assembly text of a source for an accepted machine. With `plain` nothing is optimised.
pub fn compile_text(
    alloc: Global,
    machine: &Accepted,
    source: &[u8],
    plain: bool,
) -> Result<Vec<u8>, CFault>
    requires { length source.now ≤ 4294967294 }
    ensures compiled { IfOk result (λ text. IsCompiledTo (description_in machine.now) source.now text.items) }
    ensures refused { IfErr result (Refuses (description_in machine.now) source.now) }
{
    match machine {
        Accepted::Word16(m) => compile_on::<W16>(alloc, m, source, plain),
        Accepted::Word32(m) => compile_on::<W32>(alloc, m, source, plain),
    }
}
