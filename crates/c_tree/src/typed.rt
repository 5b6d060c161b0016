//! The typed tree of a source: names are resolved, and conversions are nodes.
//!
//! An object is named by its kind and its number, a function by its number in the tree. A value in
//! the tree (of a constant, a case or an object's initialiser) is a number in 0..2^w-1 for a word of
//! w bits: a char's value is extended by the sign of its type to the word first, so the signed char
//! -1 is 65,535 where w is 16.
//!
//! A node has the place of its first token, and a statement that of its own. A cast is a conversion
//! node also where its operand has its type, and a conversion that no cast asks for has the place of
//! its operand. An act that C leaves undefined is told at the place of the node that does it.

ghost use Rattle.std.specs.Prelude.{◌≡◌};
ghost use Rattle.c_tree.specs.Heads.{head_of, is_place};

use crate::syntax::{Arithmetic, BinaryOperator, StepOperator, UnaryOperator};
use crate::token::At;
use crate::types::CType;
use sqlite_items::{Boxed, Items};

/// An object or a parameter, with the place of its name where it is first declared. A scalar has no
/// length.
#[derive(Debug, Drop)]
pub struct Object {
    pub name: Items<u8>,
    pub element: CType,
    pub length: Option<u32>,
    pub at: At,
}

/// An object of the file. `init` has the listed values, and what isn't listed is 0.
#[derive(Debug, Drop)]
pub struct Static {
    pub object: Object,
    pub init: Items<u32>,
}

/// Which object a name stands for.
#[derive(Clone, Copy, PartialEq, Eq, Debug)]
pub enum Variable {
    /// By its number among the tree's statics.
    Static(u32),
    /// By its number among the function's parameters.
    Parameter(u32),
    /// By its number among the function's locals.
    Local(u32),
}

/// Which function is called.
#[derive(Clone, Copy, PartialEq, Eq, Debug)]
pub enum Callee {
    /// By its number among the tree's functions.
    Defined(u32),
    Getchar,
    Putchar,
}

/// What a compound assignment computes of the left side's value and the right value.
#[derive(Clone, Copy, PartialEq, Eq, Debug)]
pub enum Operation {
    /// It computes in the type of the right value, which is converted already, or where it shifts in
    /// the promoted type of the left side.
    Operator(Arithmetic),
    /// A call of the function with this number, with both values converted to its parameters'
    /// types.
    Helper(u32),
}

/// The type of an expression, and the place of its first token.
#[derive(Clone, Copy, PartialEq, Eq, Debug)]
pub struct Head {
    pub of: CType,
    pub at: At,
}

/// An expression with its operands in order.
#[derive(Drop)]
pub enum TypedExpr {
    Comma(Head, Boxed<TypedExpr>, Boxed<TypedExpr>),
    Assign(Head, Boxed<TypedExpr>, Boxed<TypedExpr>),
    Compound(Head, Boxed<TypedExpr>, Operation, Boxed<TypedExpr>),
    Conditional(Head, Boxed<TypedExpr>, Boxed<TypedExpr>, Boxed<TypedExpr>),
    Binary(Head, Boxed<TypedExpr>, BinaryOperator, Boxed<TypedExpr>),
    Unary(Head, UnaryOperator, Boxed<TypedExpr>),
    /// A step before its operand.
    Before(Head, StepOperator, Boxed<TypedExpr>),
    /// A step behind its operand.
    After(Head, Boxed<TypedExpr>, StepOperator),
    /// A value of the expression's type.
    Constant(Head, u32),
    Object(Head, Variable),
    Element(Head, Variable, Boxed<TypedExpr>),
    Call(Head, Callee, Items<TypedExpr>),
    /// A conversion of the operand to the expression's type.
    Convert(Head, Boxed<TypedExpr>),
}

impl TypedExpr {
    /// The type of the expression, and the place of its first token.
    #[tactic(auto, unfolding(crate::specs::Heads::head_of))]
    pub fn head(&self) -> Head
        ensures { result ≡ head_of self.now }
    {
        match self {
            TypedExpr::Comma(head, ..) => *head,
            TypedExpr::Assign(head, ..) => *head,
            TypedExpr::Compound(head, ..) => *head,
            TypedExpr::Conditional(head, ..) => *head,
            TypedExpr::Binary(head, ..) => *head,
            TypedExpr::Unary(head, ..) => *head,
            TypedExpr::Before(head, ..) => *head,
            TypedExpr::After(head, ..) => *head,
            TypedExpr::Constant(head, _) => *head,
            TypedExpr::Object(head, _) => *head,
            TypedExpr::Element(head, ..) => *head,
            TypedExpr::Call(head, ..) => *head,
            TypedExpr::Convert(head, _) => *head,
        }
    }

    /// It designates an object or an element, so it may stand on the left of an assignment (C11
    /// 6.3.2.1).
    #[tactic(auto, unfolding(crate::specs::Heads::is_place))]
    pub fn is_place(&self) -> bool
        ensures { result ≡ is_place self.now }
    {
        matches!(self, TypedExpr::Object(..) | TypedExpr::Element(..))
    }
}

/// The initialiser of a local object.
#[derive(Drop)]
pub enum LocalInit {
    /// None: the object is unset.
    Absent,
    Value(TypedExpr),
    /// The listed values; what isn't listed is 0.
    List(Items<TypedExpr>),
}

/// A local object, by its number among the function's locals, with its initialiser.
#[derive(Drop)]
pub struct Local {
    pub number: u32,
    pub init: LocalInit,
}

/// What stands before the first semicolon of a `for`.
#[derive(Drop)]
pub enum Start {
    Absent,
    Value(TypedExpr),
    Declared(At, Items<Local>),
}

/// A statement, or a declaration of local objects.
#[derive(Drop)]
pub enum Stat {
    Block(At, Items<Boxed<Stat>>),
    /// A declaration of objects; that of a function leaves nothing in the tree.
    Declare(At, Items<Local>),
    /// An expression statement; without an expression the null statement.
    Evaluate(At, Option<TypedExpr>),
    If(At, TypedExpr, Boxed<Stat>, Option<Boxed<Stat>>),
    While(At, TypedExpr, Boxed<Stat>),
    DoWhile(At, Boxed<Stat>, TypedExpr),
    For(At, Start, Option<TypedExpr>, Option<TypedExpr>, Boxed<Stat>),
    /// The statements of a switch's block.
    Switch(At, TypedExpr, Items<Boxed<Stat>>),
    /// A case, with its value converted to the type of the switch.
    Case(At, u32, Boxed<Stat>),
    Default(At, Boxed<Stat>),
    Break(At),
    Continue(At),
    Return(At, Option<TypedExpr>),
}

/// A function with a body, which is a block, and the place of its name in the definition.
#[derive(Drop)]
pub struct Function {
    pub name: Items<u8>,
    pub result: CType,
    pub params: Items<Object>,
    pub locals: Items<Object>,
    pub body: Boxed<Stat>,
    pub at: At,
}

/// The statics of a source in the order of their first declarations, and its functions in that of
/// their definitions.
#[derive(Drop)]
pub struct Typed {
    pub statics: Items<Static>,
    pub functions: Items<Function>,
}
