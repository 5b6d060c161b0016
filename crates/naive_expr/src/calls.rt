//! Calls, and helpers that stand for operators.

ghost use Rattle.std.specs.Prelude.{◌≡◌, ◌≤◌, ◌+◌, [], ◌∷◌, ◌++◌, IfOk, OnOk};
ghost use Rattle.c_limits.specs.Frames.{word_bytes as bytes_in};
ghost use Rattle.naive_code.specs.Operations as code;
ghost use Rattle.naive_code.specs.Expressions as naive;
ghost use Rattle.naive_expr.specs.Seen.{op_of};
ghost use Rattle.naive_expr.specs.Emitted.{Adds, Brings};

use crate::emission::Emitter;
use crate::objects::push_low_byte;
use crate::operations::{Op, Stop};
use crate::operators::{computed_in, push_computation};
use crate::sites::word_bytes;
use c_tree::CType;
use c_tree::typed::Operation;
use rtl_tree::NoMemory;

/// Argument i is stored i words above the stack register.
fn stored(bytes: u32, i: usize, value: u16) -> Result<Op, NoMemory>
    ensures { IfOk result (λ op. op_of op ≡ naive.stored_at bytes i value) }
{
    if i == 0 {
        return Ok(Op::StoreTop(value));
    }
    let Ok(words) = u32::try_from(i) else {
        return Err(NoMemory);
    };
    match bytes.checked_mul(words) {
        Some(offset) => Ok(Op::StoreHome(value, offset)),
        None => Err(NoMemory),
    }
}

fn push_stores(out: &mut Emitter, bytes: u32, values: &[u16]) -> Result<(), NoMemory>
    ensures { OnOk result (Adds out.old out.new (naive.stored_from bytes 0 values.now) [] 0 0) }
{
    for (i, value) in values.iter().enumerate() {
        out.emit(stored(bytes, i, *value)?)?;
    }
    Ok(())
}

/// A call with values that are evaluated, and its result.
pub(crate) fn push_call(
    out: &mut Emitter,
    bits: u32,
    values: &[u16],
    f: u32,
    label: u32,
    depth: u16,
) -> Result<u16, NoMemory>
    ensures adds { OnOk result (Adds out.old out.new (naive.stored_from (bytes_in bits) 0 values.now ++ code.Close (code.Calls f) label ∷ code.read_result out.old.next_temp ∷ []) (depth ∷ []) 1 0) }
    ensures at { IfOk result (λ t. t ≡ out.old.next_temp) }
{
    let result_at = out.fresh(&[depth])?;
    push_stores(out, word_bytes(bits), values)?;
    out.close(Stop::Calls(f), label)?;
    out.emit(Op::ReadResult(result_at))?;
    Ok(result_at)
}

/// `getchar`.
pub(crate) fn push_input(out: &mut Emitter, depth: u16) -> Result<u16, NoMemory>
    ensures adds { OnOk result (Adds out.old out.new (code.take_input ∷ code.read_result out.old.next_temp ∷ []) (depth ∷ []) 1 0) }
    ensures at { IfOk result (λ t. t ≡ out.old.next_temp) }
{
    let t = out.fresh(&[depth])?;
    out.emit(Op::TakeInput)?;
    out.emit(Op::ReadResult(t))?;
    Ok(t)
}

/// `putchar` of a value, which becomes the byte that is put.
pub(crate) fn push_output(out: &mut Emitter, value: u16, spare: u16) -> Result<(), NoMemory>
    ensures { OnOk result (Adds out.old out.new (code.set_result value ∷ code.put_output ∷ code.constant spare 255 ∷ code.Meet value spare ∷ []) [] 0 0) }
{
    out.emit(Op::SetResult(value))?;
    out.emit(Op::PutOutput)?;
    push_low_byte(out, value, spare)
}

pub(crate) fn operation_labels(operation: Operation) -> u32
    ensures labels { result ≡ naive.operation_labels operation }
    ensures small { result ≤ 1 }
{
    match operation {
        Operation::Operator(_) => 0,
        Operation::Helper(_) => 1,
    }
}

/// What a compound assignment computes of the value of its left side and an operand.
pub(crate) fn combine(
    out: &mut Emitter,
    bits: u32,
    operation: Operation,
    of: CType,
    by: CType,
    value: u16,
    operand: u16,
    label: u32,
) -> Result<(), NoMemory>
    ensures { OnOk result (Adds out.old out.new (naive.combined (bytes_in bits) operation of by value operand label) [] 0 0) }
{
    match operation {
        Operation::Operator(operator) => {
            push_computation(out, operator, computed_in(operator, of, by), value, operand)
        }
        Operation::Helper(f) => {
            out.emit(Op::StoreTop(value))?;
            out.emit(Op::StoreHome(operand, word_bytes(bits)))?;
            out.close(Stop::Calls(f), label)?;
            out.emit(Op::ReadResult(value))
        }
    }
}
