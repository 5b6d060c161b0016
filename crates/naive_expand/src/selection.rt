//! The transfers of operations.

ghost use Rattle.std.specs.Prelude.{◌≡◌, ◌<◌, ◌^◌, ℕ, [], ◌∷◌, IfOk, OnOk};
ghost use Rattle.temp_shapes.specs.Rows.{AreShapeRows};
ghost use Rattle.naive_builder.specs.Appending.{Emits};
ghost use Rattle.naive_expr.specs.Seen.{op_of, ops_of};
ghost use Rattle.naive_fits.specs.Doable.{AreDoable, IsDoable};

use md_check::Checked;
use naive_builder::Builder;
use naive_expr::{Op, Stop};
use rtl_tree::NoMemory;
use rtl_word::Word;
use std::alloc::Global;
use temp_shapes::ShapeRows;

fn narrow(number: u32) -> u16
    requires { number < 2 ^ 16 }
    ensures { result ≡ number }
{
    number as u16
}

fn close<W: Word>(
    alloc: Global,
    m: &Checked<W>,
    rows: &ShapeRows,
    b: &mut Builder,
    stop: Stop,
    label: u32,
) -> Result<(), NoMemory>
    requires rows { AreShapeRows m.now rows.now }
    requires doable { IsDoable m.now (op_of (Op.Close stop label)) }
    ensures code { OnOk result (Emits m.now rows.now b.old (op_of (Op.Close stop label) ∷ []) b.new) }
    ensures homes { OnOk result (b.new.homes ≡ b.old.homes) }
{
    match stop {
        Stop::Falls => b.fall(alloc, label),
        Stop::Jumps(target) => b.jump::<W>(alloc, m, rows, target, label),
        Stop::Branches(relation, x, y, target) => {
            b.branch::<W>(alloc, m, rows, relation, x, y, target, label)
        }
        Stop::Calls(f) => b.call::<W>(alloc, m, rows, narrow(f), label),
        Stop::Returns => b.leave(alloc, label),
    }
}

fn append<W: Word>(
    alloc: Global,
    m: &Checked<W>,
    rows: &ShapeRows,
    b: &mut Builder,
    op: Op,
) -> Result<(), NoMemory>
    requires rows { AreShapeRows m.now rows.now }
    requires doable { IsDoable m.now (op_of op) }
    ensures code { OnOk result (Emits m.now rows.now b.old (op_of op ∷ []) b.new) }
    ensures homes { OnOk result (b.new.homes ≡ b.old.homes) }
{
    match op {
        Op::Copy(x, y) => b.copy::<W>(alloc, m, rows, x, y),
        Op::Constant(x, number) => b.constant::<W>(alloc, m, rows, x, number),
        Op::Address(x, symbol) => b.address::<W>(alloc, m, rows, x, narrow(symbol)),
        Op::Load(x, y) => b.load::<W>(alloc, m, rows, x, y),
        Op::Store(x, y) => b.store::<W>(alloc, m, rows, x, y),
        Op::LoadByte(x, y) => b.load_byte::<W>(alloc, m, rows, x, y),
        Op::StoreByte(x, y) => b.store_byte::<W>(alloc, m, rows, x, y),
        Op::Operate(operator, x, y) => b.operate::<W>(alloc, m, rows, operator, x, y),
        Op::Complement(x) => b.complement::<W>(alloc, m, rows, x),
        Op::ReadStack(x) => b.read_stack::<W>(alloc, m, rows, x),
        Op::LoadHome(x, offset) => b.load_home::<W>(alloc, m, rows, x, offset),
        Op::StoreHome(x, offset) => b.store_home::<W>(alloc, m, rows, x, offset),
        Op::StoreTop(x) => b.store_top::<W>(alloc, m, rows, x),
        Op::TakeInput => b.take_input::<W>(alloc, m, rows),
        Op::PutOutput => b.put_output::<W>(alloc, m, rows),
        Op::ReadResult(x) => b.read_result::<W>(alloc, m, rows, x),
        Op::SetResult(x) => b.set_result::<W>(alloc, m, rows, x),
        Op::Meet(x, y) => b.meet::<W>(alloc, m, rows, x, y),
        Op::Scale(x, y) => b.scale::<W>(alloc, m, rows, x, y),
        Op::Extend(x, y) => b.extend::<W>(alloc, m, rows, x, y),
        Op::Close(stop, label) => close::<W>(alloc, m, rows, b, stop, label),
    }
}

/// Appends the transfers of operations.
pub fn append_all<W: Word>(
    alloc: Global,
    m: &Checked<W>,
    rows: &ShapeRows,
    b: &mut Builder,
    ops: &[Op],
) -> Result<(), NoMemory>
    requires rows { AreShapeRows m.now rows.now }
    requires doable { AreDoable m.now (ops_of ops.now) }
    ensures code { OnOk result (Emits m.now rows.now b.old (ops_of ops.now) b.new) }
    ensures homes { OnOk result (b.new.homes ≡ b.old.homes) }
{
    for op in ops {
        append::<W>(alloc, m, rows, b, *op)?;
    }
    Ok(())
}
