//! What reads objects, and what assigns to them.

ghost use Rattle.std.specs.Prelude.{◌≡◌, ◌+◌, ◌<◌, ◌^◌, [], ◌∷◌, IfOk, OnOk};
ghost use Rattle.naive_code.specs.Expressions.{addressed, base_ops, fetched, got_from, missing_value, narrowed, put_at, put_into, read_object, scaled, spare_count, spare_depths};
ghost use Rattle.naive_expr.specs.Seen.{base_of, storage_of};
ghost use Rattle.naive_expr.specs.Emitted.{Adds, Brings};

use crate::emission::Emitter;
use crate::operations::Op;
use crate::sites::{Base, Storage};
use c_tree::CType;
use rtl_tree::{BinOp, NoMemory};

/// Where an array begins, by a temporary and the next one.
fn push_base(out: &mut Emitter, base: Base, t: u16) -> Result<(), NoMemory>
    requires { t + 1 < 2 ^ 16 }
    ensures { OnOk result (Adds out.old out.new (base_ops (base_of base) t) [] 0 0) }
{
    match base {
        Base::Symbol(y) => out.emit(Op::Address(t, y)),
        Base::Frame(offset) => {
            out.emit(Op::ReadStack(t))?;
            out.emit(Op::Constant(t + 1, offset))?;
            out.emit(Op::Operate(BinOp::Add, t, t + 1))
        }
    }
}

fn push_scale(out: &mut Emitter, of: CType, index: u16, spare: u16) -> Result<(), NoMemory>
    ensures { OnOk result (Adds out.old out.new (scaled of index spare) [] 0 0) }
{
    match of {
        CType::Schar => Ok(()),
        CType::Uchar => Ok(()),
        _ => out.emit(Op::Scale(index, spare)),
    }
}

/// The address of an element takes the place of its index.
pub(crate) fn push_address(
    out: &mut Emitter,
    base: Base,
    of: CType,
    index: u16,
    depth: u16,
) -> Result<(), NoMemory>
    requires { depth + 2 < 2 ^ 16 }
    ensures { OnOk result (Adds out.old out.new (addressed (base_of base) of index out.old.next_temp) ((depth + 1) ∷ (depth + 2) ∷ (depth + 2) ∷ []) 3 0) }
{
    let t = out.fresh(&[depth + 1, depth + 2, depth + 2])?;
    push_scale(out, of, index, t + 2)?;
    push_base(out, base, t)?;
    out.emit(Op::Operate(BinOp::Add, index, t))
}

/// The bits of the low byte.
pub(crate) fn push_low_byte(out: &mut Emitter, value: u16, spare: u16) -> Result<(), NoMemory>
    ensures { OnOk result (Adds out.old out.new (narrowed CType.Uchar value spare) [] 0 0) }
{
    out.emit(Op::Constant(spare, 255))?;
    out.emit(Op::Meet(value, spare))
}

/// An element is loaded from its address.
pub(crate) fn push_fetch(
    out: &mut Emitter,
    of: CType,
    value: u16,
    at: u16,
    spare: u16,
) -> Result<(), NoMemory>
    ensures { OnOk result (Adds out.old out.new (fetched of value at spare) [] 0 0) }
{
    match of {
        CType::Schar => out.emit(Op::LoadByte(value, at)),
        CType::Uchar => {
            out.emit(Op::LoadByte(value, at))?;
            push_low_byte(out, value, spare)
        }
        _ => out.emit(Op::Load(value, at)),
    }
}

/// A value is stored at the address of an element.
pub fn push_store(out: &mut Emitter, of: CType, at: u16, value: u16) -> Result<(), NoMemory>
    ensures { OnOk result (Adds out.old out.new (put_at of at value) [] 0 0) }
{
    match of {
        CType::Schar => out.emit(Op::StoreByte(at, value)),
        CType::Uchar => out.emit(Op::StoreByte(at, value)),
        _ => out.emit(Op::Store(at, value)),
    }
}

/// A value is brought into a type (C11 6.3.1.3).
pub(crate) fn push_narrow(
    out: &mut Emitter,
    of: CType,
    value: u16,
    spare: u16,
) -> Result<(), NoMemory>
    ensures { OnOk result (Adds out.old out.new (narrowed of value spare) [] 0 0) }
{
    match of {
        CType::Schar => out.emit(Op::Extend(value, spare)),
        CType::Uchar => push_low_byte(out, value, spare),
        _ => Ok(()),
    }
}

/// A conversion (C11 6.3.1.3). It takes a temporary where it changes a value.
pub(crate) fn push_conversion(
    out: &mut Emitter,
    of: CType,
    value: u16,
    depth: u16,
) -> Result<(), NoMemory>
    requires { depth + 1 < 2 ^ 16 }
    ensures { OnOk result (Adds out.old out.new (narrowed of value out.old.next_temp) (spare_depths of depth) (spare_count of) 0) }
{
    match of {
        CType::Schar => {
            let spare = out.fresh(&[depth + 1])?;
            out.emit(Op::Extend(value, spare))
        }
        CType::Uchar => {
            let spare = out.fresh(&[depth + 1])?;
            push_low_byte(out, value, spare)
        }
        _ => Ok(()),
    }
}

/// The value of an object comes to a temporary; an element's from its address.
pub(crate) fn push_get(
    out: &mut Emitter,
    storage: Storage,
    value: u16,
    at: u16,
    spare: u16,
) -> Result<(), NoMemory>
    ensures { OnOk result (Adds out.old out.new (got_from (storage_of storage) value at spare) [] 0 0) }
{
    match storage {
        Storage::Temporary(k) => out.emit(Op::Copy(value, k)),
        Storage::Word(y) => {
            out.emit(Op::Address(value, y))?;
            out.emit(Op::Load(value, value))
        }
        Storage::Elements(_, of) => push_fetch(out, of, value, at, spare),
        Storage::Missing => Ok(()),
    }
}

/// A value is assigned to an object; to an element at its address.
pub fn push_put(
    out: &mut Emitter,
    storage: Storage,
    at: u16,
    value: u16,
    spare: u16,
) -> Result<(), NoMemory>
    ensures { OnOk result (Adds out.old out.new (put_into (storage_of storage) at value spare) [] 0 0) }
{
    match storage {
        Storage::Temporary(k) => out.emit(Op::Copy(k, value)),
        Storage::Word(y) => {
            out.emit(Op::Address(spare, y))?;
            out.emit(Op::Store(spare, value))
        }
        Storage::Elements(_, of) => push_store(out, of, at, value),
        Storage::Missing => Ok(()),
    }
}

/// The value of an object as a value of its own.
pub(crate) fn push_object(out: &mut Emitter, storage: Storage, depth: u16) -> Result<u16, NoMemory>
    ensures adds { OnOk result (Brings out.old out.new (read_object (storage_of storage)) depth) }
    ensures at { IfOk result (λ t. t ≡ out.old.next_temp) }
{
    let t = out.fresh(&[depth])?;
    push_get(out, storage, t, 0, 0)?;
    Ok(t)
}

/// A temporary that is never set, of what no sound tree comes to.
pub(crate) fn push_missing(out: &mut Emitter, depth: u16) -> Result<u16, NoMemory>
    ensures adds { OnOk result (Brings out.old out.new missing_value depth) }
    ensures at { IfOk result (λ t. t ≡ out.old.next_temp) }
{
    out.fresh(&[depth])
}
