//! Operators.

ghost use Rattle.std.specs.Prelude.{◌≡◌, ◌+◌, ◌<◌, ◌^◌, [], ◌∷◌, ◌++◌, IfOk, OnOk, false, not};
ghost use Rattle.c_meaning.specs.Operators as meaning;
ghost use Rattle.naive_code.specs.Operations as code;
ghost use Rattle.naive_code.specs.Expressions as naive;
ghost use Rattle.naive_expr.specs.Emitted.{Adds};
ghost use Rattle.naive_expr.specs.Seen.{op_of};
ghost use Rattle.naive_expr.specs.Sorts.{sort_in};

use crate::emission::{Emitter, Jump};
use crate::objects::push_narrow;
use crate::operations::{Op, Stop};
use c_tree::CType;
use c_tree::syntax::{Arithmetic, BinaryOperator, StepOperator};
use rtl_tree::{BinOp, NoMemory};
use rtl_word::Rel;

/// What an operator between two operands is.
#[derive(Clone, Copy, Debug, PartialEq, Eq)]
pub(crate) enum Sort {
    Computes(Arithmetic),
    /// A relation, of int and of unsigned operands.
    Compares(Rel, Rel),
    /// `&&` where it is so, else `||`.
    Logical(bool),
}

pub(crate) fn sort_of(operator: BinaryOperator) -> Sort
    ensures { sort_in result ≡ meaning.sort_of operator }
{
    match operator {
        BinaryOperator::LogicalOr => Sort::Logical(false),
        BinaryOperator::LogicalAnd => Sort::Logical(true),
        BinaryOperator::Or => Sort::Computes(Arithmetic::Or),
        BinaryOperator::Xor => Sort::Computes(Arithmetic::Xor),
        BinaryOperator::And => Sort::Computes(Arithmetic::And),
        BinaryOperator::Equal => Sort::Compares(Rel::Eq, Rel::Eq),
        BinaryOperator::NotEqual => Sort::Compares(Rel::Ne, Rel::Ne),
        BinaryOperator::Less => Sort::Compares(Rel::Lt, Rel::Ltu),
        BinaryOperator::Greater => Sort::Compares(Rel::Gt, Rel::Gtu),
        BinaryOperator::LessEqual => Sort::Compares(Rel::Le, Rel::Leu),
        BinaryOperator::GreaterEqual => Sort::Compares(Rel::Ge, Rel::Geu),
        BinaryOperator::ShiftLeft => Sort::Computes(Arithmetic::ShiftLeft),
        BinaryOperator::ShiftRight => Sort::Computes(Arithmetic::ShiftRight),
        BinaryOperator::Add => Sort::Computes(Arithmetic::Add),
        BinaryOperator::Subtract => Sort::Computes(Arithmetic::Subtract),
        BinaryOperator::Multiply => Sort::Computes(Arithmetic::Multiply),
        BinaryOperator::Divide => Sort::Computes(Arithmetic::Divide),
        BinaryOperator::Remainder => Sort::Computes(Arithmetic::Remainder),
    }
}

pub(crate) fn relation_in(of: CType, signed: Rel, unsigned: Rel) -> Rel
    ensures { result ≡ meaning.relation_in of signed unsigned }
{
    match of {
        CType::Unsigned => unsigned,
        _ => signed,
    }
}

/// The type in which a compound assignment computes: a shift in the promoted type of its left side.
pub(crate) fn computed_in(operator: Arithmetic, left: CType, right: CType) -> CType
    ensures { result ≡ meaning.computed_in operator left right }
{
    match operator {
        Arithmetic::ShiftLeft => promoted(left),
        Arithmetic::ShiftRight => promoted(left),
        _ => right,
    }
}

fn promoted(of: CType) -> CType
    ensures { result ≡ meaning.promoted of }
{
    match of {
        CType::Unsigned => CType::Unsigned,
        _ => CType::Int,
    }
}

fn by_type(of: CType, signed: BinOp, unsigned: BinOp) -> BinOp
    ensures { result ≡ naive.by_type of signed unsigned }
{
    match of {
        CType::Unsigned => unsigned,
        _ => signed,
    }
}

fn computation(operator: Arithmetic, of: CType, a: u16, b: u16) -> Op
    ensures { op_of result ∷ [] ≡ naive.computed operator of a b }
{
    match operator {
        Arithmetic::Add => Op::Operate(BinOp::Add, a, b),
        Arithmetic::Subtract => Op::Operate(BinOp::Sub, a, b),
        Arithmetic::Multiply => Op::Operate(BinOp::Mul, a, b),
        Arithmetic::Divide => Op::Operate(by_type(of, BinOp::Div, BinOp::Divu), a, b),
        Arithmetic::Remainder => Op::Operate(by_type(of, BinOp::Rem, BinOp::Remu), a, b),
        Arithmetic::And => Op::Meet(a, b),
        Arithmetic::Xor => Op::Operate(BinOp::Xor, a, b),
        Arithmetic::Or => Op::Operate(BinOp::Or, a, b),
        Arithmetic::ShiftLeft => Op::Operate(BinOp::Shl, a, b),
        Arithmetic::ShiftRight => Op::Operate(by_type(of, BinOp::Shr, BinOp::Shru), a, b),
    }
}

/// The result takes the place of the left operand.
pub(crate) fn push_computation(
    out: &mut Emitter,
    operator: Arithmetic,
    of: CType,
    a: u16,
    b: u16,
) -> Result<(), NoMemory>
    ensures { OnOk result (Adds out.old out.new (naive.computed operator of a b) [] 0 0) }
{
    out.emit(computation(operator, of, a, b))
}

fn relation_if(sense: bool, relation: Rel) -> Rel
    ensures { result ≡ naive.relation_if sense relation }
{
    if sense { relation } else { relation.negated() }
}

/// A jump by a relation of two temporaries.
pub(crate) fn push_branch(
    out: &mut Emitter,
    relation: Rel,
    a: u16,
    b: u16,
    jump: Jump,
) -> Result<(), NoMemory>
    ensures { OnOk result (Adds out.old out.new (code.Close (code.Branches (naive.relation_if jump.sense relation) a b jump.target) jump.next ∷ []) [] 0 0) }
{
    let relation = relation_if(jump.sense, relation);
    out.close(Stop::Branches(relation, a, b, jump.target), jump.next)
}

/// A jump by the truth of a value, which is compared with 0.
pub(crate) fn push_truth(
    out: &mut Emitter,
    value: u16,
    jump: Jump,
    depth: u16,
) -> Result<(), NoMemory>
    requires { depth + 1 < 2 ^ 16 }
    ensures { OnOk result (Adds out.old out.new (code.constant out.old.next_temp 0 ∷ code.Close (code.Branches (naive.relation_if jump.sense Rel.Ne) value out.old.next_temp jump.target) jump.next ∷ []) ((depth + 1) ∷ []) 1 0) }
{
    let zero = out.fresh(&[depth + 1])?;
    out.emit(Op::Constant(zero, 0))?;
    push_branch(out, Rel::Ne, value, zero, jump)
}

/// Where the first operand's truth decides, that of the whole is known: to the target where the jump's sense is that of `||` or its
/// denial, else on.
pub(crate) fn decided(and: bool, jump: Jump) -> u32
    ensures { result ≡ naive.decided and jump.sense jump.target jump.next }
{
    if and {
        if jump.sense { jump.next } else { jump.target }
    } else {
        if jump.sense { jump.target } else { jump.next }
    }
}

fn step_operator(operator: StepOperator) -> BinOp
    ensures { result ≡ naive.step_operator operator }
{
    match operator {
        StepOperator::Increment => BinOp::Add,
        StepOperator::Decrement => BinOp::Sub,
    }
}

/// A value becomes the next one of its type, or the one before.
pub(crate) fn push_step(
    out: &mut Emitter,
    operator: StepOperator,
    of: CType,
    value: u16,
    spare: u16,
) -> Result<(), NoMemory>
    requires { spare + 1 < 2 ^ 16 }
    ensures { OnOk result (Adds out.old out.new (code.constant spare 1 ∷ code.operate (naive.step_operator operator) value spare ∷ naive.narrowed of value (spare + 1)) [] 0 0) }
{
    out.emit(Op::Constant(spare, 1))?;
    out.emit(Op::Operate(step_operator(operator), value, spare))?;
    push_narrow(out, of, value, spare + 1)
}

/// A truth that is brought to a temporary: 0, which is kept where the truth leads to the label, and else 1.
#[derive(Clone, Copy, Debug)]
pub(crate) struct Truth {
    pub value: u16,
    pub label: u32,
}

impl Truth {
    /// The jump by the truth.
    pub(crate) fn jump(self) -> Jump
        requires { self.label + 1 < 2 ^ 32 }
        ensures { result ≡ record { sense = false; target = self.label; next = self.label + 1 } }
    {
        Jump {
            sense: false,
            target: self.label,
            next: self.label + 1,
        }
    }
}

pub(crate) fn begin_truth(out: &mut Emitter, depth: u16) -> Result<Truth, NoMemory>
    ensures adds { OnOk result (Adds out.old out.new (code.constant out.old.next_temp 0 ∷ []) (depth ∷ []) 1 2) }
    ensures first { IfOk result (λ r. r ≡ record { value = out.old.next_temp; label = out.old.next_label }) }
    ensures fits { IfOk result (λ r. r.label + 2 < 2 ^ 32) }
{
    let value = out.fresh(&[depth])?;
    let label = out.take_labels(2)?;
    out.emit(Op::Constant(value, 0))?;
    Ok(Truth { value, label })
}

/// Answers the temporary.
pub(crate) fn end_truth(out: &mut Emitter, truth: Truth) -> Result<u16, NoMemory>
    ensures adds { OnOk result (Adds out.old out.new (code.constant truth.value 1 ∷ code.Close code.Falls truth.label ∷ []) [] 0 0) }
    ensures at { IfOk result (λ t. t ≡ truth.value) }
{
    out.emit(Op::Constant(truth.value, 1))?;
    out.close(Stop::Falls, truth.label)?;
    Ok(truth.value)
}

/// The jump by the contrary of a truth.
pub(crate) fn denied(jump: Jump) -> Jump
    ensures { result ≡ record { sense = not jump.sense; target = jump.target; next = jump.next } }
{
    Jump {
        sense: !jump.sense,
        target: jump.target,
        next: jump.next,
    }
}
