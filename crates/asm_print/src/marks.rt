//! The lines of labels and directives.

ghost use Rattle.std.specs.Prelude.{◌≡◌, ◌++◌, ◌<◌, OnOk, Some, length, pos, slice_get};
ghost use Rattle.md_rows.specs.declared.instance.Bound.TheVariants.{Label as LabelBound};
ghost use Rattle.asm_row.specs.Line.{IsNamed};
ghost use Rattle.asm_program.specs.TextLines.{Block, Byte, Labelled, Symbol};
ghost use Rattle.asm_print.specs.Layout.{label_of, object_label};
ghost use Rattle.asm_print.specs.Written.{line_text};

use itoa::Buffer;
use rtl_tree::{Lab, NameList, Names, NoMemory};

fn name_at(names: &NameList, place: u16) -> &[u8]
    requires named { place < length names.now }
    ensures { slice_get names.now place ≡ Some result.now }
{
    match names.get(usize::from(place)) {
        Some(name) => name,
        None => unreachable!(),
    }
}

fn push_symbol(out: &mut Vec<u8>, name: &[u8]) -> Result<(), NoMemory>
    ensures { OnOk result (out.new.items ≡ out.old.items ++ line_text (Labelled (Symbol name.now))) }
{
    out.push(b'_')?;
    out.extend_from_slice(name)?;
    out.extend_from_slice(b":\n")?;
    Ok(())
}

fn push_block(out: &mut Vec<u8>, number: u32) -> Result<(), NoMemory>
    ensures { OnOk result (out.new.items ≡ out.old.items ++ line_text (Labelled (Block number))) }
{
    let mut buffer = Buffer::new();
    out.push(b'L')?;
    out.extend_from_slice(buffer.format(number).as_bytes())?;
    out.extend_from_slice(b":\n")?;
    Ok(())
}

/// Appends the line of a label of the text part.
pub(crate) fn push_label(out: &mut Vec<u8>, names: &Names, label: Lab) -> Result<(), NoMemory>
    requires named { IsNamed names.now (LabelBound label) }
    ensures { OnOk result (out.new.items ≡ out.old.items ++ line_text (Labelled (label_of names.now label))) }
{
    match label {
        Lab::Block(number) => push_block(out, number),
        Lab::Function(place) => push_symbol(out, name_at(&names.functions, place)),
    }
}

/// Appends the line of an object's label.
pub(crate) fn push_object(out: &mut Vec<u8>, names: &Names, place: u16) -> Result<(), NoMemory>
    requires named { place < length names.now.objects }
    ensures { OnOk result (out.new.items ≡ out.old.items ++ line_text (Labelled (object_label names.now place))) }
{
    push_symbol(out, name_at(&names.objects, place))
}

/// Appends the line of a byte of the data.
pub(crate) fn push_byte(out: &mut Vec<u8>, byte: u8) -> Result<(), NoMemory>
    ensures { OnOk result (out.new.items ≡ out.old.items ++ line_text (Byte (pos byte))) }
{
    let mut buffer = Buffer::new();
    out.extend_from_slice(b"\t.byte ")?;
    out.extend_from_slice(buffer.format(byte).as_bytes())?;
    out.push(b'\n')?;
    Ok(())
}
