//! The form of a line.

ghost use Rattle.std.specs.Prelude.{◌≡◌, ◌≤◌, ℕ, ℤ, List, length, codes, IfOk, IsErrOf};
ghost use Rattle.rtl_word.specs.Words.{IsWordSize};
ghost use Rattle.md_text.specs.Forms.{Form as Said, HasForm, IsNameLine, IsNumberLine};
ghost use Rattle.md_forms.specs.Seen.{form_of};
ghost use Rattle.md_parser.specs.Refusals.{RefusesKind};

use crate::bars::{mode_line, row_line};
use crate::fault::FormFault;
use crate::keywords::{Keyword, first_word};
use crate::plain::{class_line, flag_line, name_line, number_line, register_line};
use md_forms::Form;
use std::alloc::Global;

fn version(line: &[u8]) -> Result<Form, FormFault>
    ensures found { IfOk result (λ form. (w : ℕ) → HasForm w line.now (form_of form)) }
    ensures refused { IsErrOf result FormFault.NoForm → line.now ≡ codes "vpo 1" → ⊥ }
{
    if line == b"vpo 1".as_slice() {
        Ok(Form::Version)
    } else {
        Err(FormFault::NoForm)
    }
}

fn machine_name(alloc: Global, line: &[u8]) -> Result<Form, FormFault>
    ensures found { IfOk result (λ form. (w : ℕ) → HasForm w line.now (form_of form)) }
    ensures refused { IsErrOf result FormFault.NoForm → (name : List ℕ) → IsNameLine (codes "name ") line.now name → ⊥ }
{
    let name = match name_line(alloc, line, b"name ") {
        Ok(name) => name,
        Err(fault) => return Err(fault),
    };
    Ok(Form::MachineName(name))
}

fn word_bits(line: &[u8]) -> Result<Form, FormFault>
    ensures found { IfOk result (λ form. (w : ℕ) → HasForm w line.now (form_of form)) }
    ensures refused { IsErrOf result FormFault.NoForm → (z : ℤ) → IsNumberLine (codes "word ") line.now z → ⊥ }
{
    let number = match number_line(line, b"word ") {
        Ok(number) => number,
        Err(fault) => return Err(fault),
    };
    Ok(Form::WordBits(number))
}

fn memory_size(line: &[u8]) -> Result<Form, FormFault>
    ensures found { IfOk result (λ form. (w : ℕ) → HasForm w line.now (form_of form)) }
    ensures refused { IsErrOf result FormFault.NoForm → (z : ℤ) → IsNumberLine (codes "memory ") line.now z → ⊥ }
{
    let number = match number_line(line, b"memory ") {
        Ok(number) => number,
        Err(fault) => return Err(fault),
    };
    Ok(Form::MemorySize(number))
}

fn data_begin(line: &[u8]) -> Result<Form, FormFault>
    ensures found { IfOk result (λ form. (w : ℕ) → HasForm w line.now (form_of form)) }
    ensures refused { IsErrOf result FormFault.NoForm → (z : ℤ) → IsNumberLine (codes "data ") line.now z → ⊥ }
{
    let number = match number_line(line, b"data ") {
        Ok(number) => number,
        Err(fault) => return Err(fault),
    };
    Ok(Form::DataBegin(number))
}

fn stack_size(line: &[u8]) -> Result<Form, FormFault>
    ensures found { IfOk result (λ form. (w : ℕ) → HasForm w line.now (form_of form)) }
    ensures refused { IsErrOf result FormFault.NoForm → (z : ℤ) → IsNumberLine (codes "stack ") line.now z → ⊥ }
{
    let number = match number_line(line, b"stack ") {
        Ok(number) => number,
        Err(fault) => return Err(fault),
    };
    Ok(Form::StackSize(number))
}

/// What a line with this keyword says.
fn line_of(alloc: Global, bits: u32, keyword: Keyword, line: &[u8]) -> Result<Form, FormFault>
    requires size { IsWordSize bits }
    requires short { length line.now ≤ 255 }
    ensures found { IfOk result (λ form. HasForm bits line.now (form_of form)) }
    ensures refused { IsErrOf result FormFault.NoForm → RefusesKind keyword bits line.now }
{
    match keyword {
        Keyword::Version => version(line),
        Keyword::MachineName => machine_name(alloc, line),
        Keyword::WordBits => word_bits(line),
        Keyword::MemorySize => memory_size(line),
        Keyword::DataBegin => data_begin(line),
        Keyword::StackSize => stack_size(line),
        Keyword::Register => register_line(alloc, line),
        Keyword::Flag => flag_line(alloc, line),
        Keyword::Class => class_line(alloc, line),
        Keyword::Mode => mode_line(alloc, bits, line),
        Keyword::Row => row_line(alloc, bits, line),
    }
}

/// What a line says, where transfers are on words of so many bits.
pub fn read_form(alloc: Global, bits: u32, line: &[u8]) -> Result<Form, FormFault>
    requires size { IsWordSize bits }
    requires short { length line.now ≤ 255 }
    ensures found { IfOk result (λ form. HasForm bits line.now (form_of form)) }
    ensures refused { IsErrOf result FormFault.NoForm → (form : Said) → HasForm bits line.now form → ⊥ }
{
    let Some(keyword) = first_word(line) else {
        return Err(FormFault::NoForm);
    };
    line_of(alloc, bits, keyword, line)
}
