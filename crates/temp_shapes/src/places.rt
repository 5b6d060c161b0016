//! Where a pattern stands in the list of the shapes.

ghost use Rattle.std.specs.Prelude.{◌≡◌, ◌<◌, get_or, true, Some};
ghost use Rattle.rtl_word.specs.declared.Rel.TheVariants.{Eq};
ghost use Rattle.md_shapes.specs.declared.patterns.Pattern.TheVariants.{Operate};
ghost use Rattle.md_shapes.specs.Patterns.{pattern_of};
ghost use Rattle.md_shapes.specs.Shapes.{relations, shape_by};
ghost use Rattle.temp_shapes.specs.Patterns.{is_listed, is_operator};

use md_shapes::Pattern;
use rtl_tree::BinOp;
use rtl_word::Rel;

fn relation_place(relation: Rel) -> usize
    ensures relation { get_or relations result Eq ≡ relation }
    ensures place { result < 10 }
{
    match relation {
        Rel::Eq => 0,
        Rel::Ne => 1,
        Rel::Lt => 2,
        Rel::Le => 3,
        Rel::Gt => 4,
        Rel::Ge => 5,
        Rel::Ltu => 6,
        Rel::Leu => 7,
        Rel::Gtu => 8,
        Rel::Geu => 9,
    }
}

fn operator_place(operator: BinOp) -> usize
    requires { is_operator operator ≡ true }
    ensures shape { pattern_of (shape_by result) ≡ Some (Operate operator) }
    ensures place { result < 137 }
{
    match operator {
        BinOp::Add => 13,
        BinOp::Sub => 14,
        BinOp::Or => 15,
        BinOp::And => 17,
        BinOp::Mul => 127,
        BinOp::Div => 128,
        BinOp::Divu => 129,
        BinOp::Rem => 130,
        BinOp::Remu => 131,
        BinOp::Shl => 132,
        BinOp::Shr => 133,
        BinOp::Shru => 134,
        BinOp::Xor => 135,
        BinOp::Cmp(_) | BinOp::Pair | BinOp::When => unreachable!(),
    }
}

/// The place of the shape of a pattern.
pub(crate) fn place_of(pattern: Pattern) -> usize
    requires { is_listed pattern ≡ true }
    ensures shape { pattern_of (shape_by result) ≡ Some pattern }
    ensures place { result < 137 }
{
    match pattern {
        Pattern::Copy => 0,
        Pattern::SetNumber => 1,
        Pattern::SetSymbol => 2,
        Pattern::Load => 3,
        Pattern::Store => 4,
        Pattern::LoadByte => 5,
        Pattern::StoreByte => 6,
        Pattern::LoadHome => 7,
        Pattern::StoreHome => 8,
        Pattern::StoreTop => 9,
        Pattern::ReadStack => 10,
        Pattern::MoveStack => 11,
        Pattern::SetStack => 12,
        Pattern::Operate(operator) => operator_place(operator),
        Pattern::Complement => 16,
        Pattern::Clear => 18,
        Pattern::Jump => 19,
        Pattern::Branch(relation) => 20 + relation_place(relation),
        Pattern::Compare(flag) => 30 + usize::from(flag),
        Pattern::BranchByFlag(relation, flag) => {
            38 + 8 * relation_place(relation) + usize::from(flag)
        }
        Pattern::Call => 118,
        Pattern::Return => 119,
        Pattern::SaveLink => 120,
        Pattern::RestoreLink => 121,
        Pattern::TakeInput => 122,
        Pattern::PutOutput => 123,
        Pattern::Halt => 124,
        Pattern::ReadResult => 125,
        Pattern::SetResult => 126,
        Pattern::ExtendByte => 136,
    }
}
