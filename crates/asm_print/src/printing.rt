//! The printing of whole programs.

ghost use Rattle.std.specs.Prelude.{◌≡◌, ◌+◌, ◌++◌, ◌<◌, ◌≤◌, All, IfOk, OnOk, length, map};
ghost use Rattle.md_rows.specs.declared.instance.Bound.TheVariants.{Label as LabelBound};
ghost use Rattle.md_rows.specs.declared.row.Row.{Row as Line};
ghost use Rattle.md_rows.specs.Instances.{IsInstance};
ghost use Rattle.asm_row.specs.Line.{IsNamed};
ghost use Rattle.asm_program.specs.TextLines.{Others};
ghost use Rattle.asm_program.specs.Programs.{IsText};
ghost use Rattle.asm_print.specs.Law.{IsLaidOut};
ghost use Rattle.asm_print.specs.Layout.{AreBetween, byte_lines, instruction_lines, label_stop, object_stop, tokens_of, woven};
ghost use Rattle.asm_print.specs.Printable.{IsOf, IsProgramFor};
ghost use Rattle.asm_print.specs.Written.{line_text, text_of};

use crate::law::lines_are_text;
use crate::marks::{push_byte, push_label, push_object};
use crate::stops::{ObjectAt, labels_in_order, objects_in_order};
use asm_line::{LineBuf, print_line};
use asm_program::Program;
use md_check::Checked;
use md_rows::Instance;
use rtl_tree::{Names, NoMemory};
use rtl_value::LabelAt;
use rtl_word::Word;
use std::alloc::Global;

fn push_instruction<W: Word>(
    out: &mut Vec<u8>,
    m: &Checked<W>,
    names: &Names,
    instance: &Instance,
) -> Result<(), NoMemory>
    requires instance { (row : Line) × IsInstance m.now instance.now row }
    requires named { All (IsNamed names.now) instance.now.binding }
    ensures { OnOk result (out.new.items ≡ out.old.items ++ line_text (Others (tokens_of m.now names.now instance.now))) }
{
    let mut line = LineBuf::new();
    print_line::<W>(m, instance, names, &mut line);
    out.push(b'\t')?;
    out.extend_from_slice(line.bytes())?;
    out.push(b'\n')?;
    Ok(())
}

fn push_instructions<W: Word>(
    out: &mut Vec<u8>,
    m: &Checked<W>,
    names: &Names,
    lines: &[Instance],
) -> Result<(), NoMemory>
    requires instances { All (IsOf m.now) lines.now }
    requires named { All (λ i. All (IsNamed names.now) i.binding) lines.now }
    ensures { OnOk result (out.new.items ≡ out.old.items ++ text_of (instruction_lines m.now names.now lines.now)) }
{
    for line in lines {
        push_instruction::<W>(out, m, names, line)?;
    }
    Ok(())
}

fn push_bytes(out: &mut Vec<u8>, bytes: &[u8]) -> Result<(), NoMemory>
    ensures { OnOk result (out.new.items ≡ out.old.items ++ text_of (byte_lines bytes.now)) }
{
    for byte in bytes {
        push_byte(out, *byte)?;
    }
    Ok(())
}

// The instructions, with each label before the one at which it stands.
fn push_text_part<W: Word>(
    out: &mut Vec<u8>,
    m: &Checked<W>,
    names: &Names,
    labels: &[LabelAt],
    lines: &[Instance],
) -> Result<(), NoMemory>
    requires instances { All (IsOf m.now) lines.now }
    requires named { All (λ i. All (IsNamed names.now) i.binding) lines.now }
    requires functions { All (λ l. IsNamed names.now (LabelBound l.label)) labels.now }
    requires order { AreBetween 0 (length lines.now) (map (label_stop names.now) labels.now) }
    ensures { OnOk result (out.new.items ≡ out.old.items ++ text_of (woven 0 (map (label_stop names.now) labels.now) (instruction_lines m.now names.now lines.now))) }
{
    let (_, mut rest) = lines.split_at(0);
    let mut place = 0;
    for label in labels {
        let (front, behind) = rest.split_at((label.at - place) as usize);
        push_instructions::<W>(out, m, names, front)?;
        push_label(out, names, label.label)?;
        rest = behind;
        place = label.at;
    }
    push_instructions::<W>(out, m, names, rest)
}

// The bytes, with each object before the one at whose address it stands.
fn push_data(
    out: &mut Vec<u8>,
    base: u32,
    names: &Names,
    objects: &[ObjectAt],
    bytes: &[u8],
) -> Result<(), NoMemory>
    requires named { All (λ o. o.object < length names.now.objects) objects.now }
    requires order { AreBetween base (base + length bytes.now) (map (object_stop names.now) objects.now) }
    ensures { OnOk result (out.new.items ≡ out.old.items ++ text_of (woven base (map (object_stop names.now) objects.now) (byte_lines bytes.now))) }
{
    let (_, mut rest) = bytes.split_at(0);
    let mut place = base;
    for object in objects {
        let (front, behind) = rest.split_at((object.at - place) as usize);
        push_bytes(out, front)?;
        push_object(out, names, object.object)?;
        rest = behind;
        place = object.at;
    }
    push_bytes(out, rest)
}

fn laid_out<W: Word>(alloc: Global, m: &Checked<W>, p: &Program) -> Result<Vec<u8>, NoMemory>
    requires printable { IsProgramFor m.now p.now }
    ensures { IfOk result (λ text. IsLaidOut m.now p.now text.items) }
{
    let labels = labels_in_order(alloc, &p.labels)?;
    let objects = objects_in_order(alloc, &p.symbols)?;
    let mut out = Vec::from_slice(alloc, b".text\n")?;
    push_text_part::<W>(&mut out, m, &p.names, &labels, &p.lines)?;
    out.extend_from_slice(b".data\n")?;
    push_data(&mut out, m.raw().base, &p.names, &objects, &p.bytes)?;
    Ok(out)
}

/// The text of a program: each label stands before the instruction or the byte of its place, and each byte of the data has a line.
pub fn print_text<W: Word>(alloc: Global, m: &Checked<W>, p: &Program) -> Result<Vec<u8>, NoMemory>
    requires printable { IsProgramFor m.now p.now }
    ensures text { IfOk result (λ text. IsText m.now text.items p.now) }
    ensures layout { IfOk result (λ text. IsLaidOut m.now p.now text.items) }
{
    lines_are_text();
    let _ = (p.names.objects.len(), p.names.functions.len());
    let _ = m.raw();
    laid_out::<W>(alloc, m, p)
}
