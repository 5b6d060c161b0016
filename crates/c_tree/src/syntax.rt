//! The syntax tree of a source (C11 6.5 to 6.9). A node has the place of its first token.

ghost use Rattle.std.specs.Prelude.{◌≡◌};
ghost use Rattle.c_tree.specs.Places.{place_of};

use crate::token::At;
use sqlite_items::{Boxed, Items};

/// An operator between two operands (C11 6.5.5 to 6.5.14).
#[derive(Clone, Copy, PartialEq, Eq, Debug)]
pub enum BinaryOperator {
    LogicalOr,
    LogicalAnd,
    Or,
    Xor,
    And,
    Equal,
    NotEqual,
    Less,
    Greater,
    LessEqual,
    GreaterEqual,
    ShiftLeft,
    ShiftRight,
    Add,
    Subtract,
    Multiply,
    Divide,
    Remainder,
}

/// An operator that a compound assignment may have (C11 6.5.16.2).
#[derive(Clone, Copy, PartialEq, Eq, Debug)]
pub enum Arithmetic {
    Add,
    Subtract,
    Multiply,
    Divide,
    Remainder,
    And,
    Xor,
    Or,
    ShiftLeft,
    ShiftRight,
}

/// An assignment operator (C11 6.5.16).
#[derive(Clone, Copy, PartialEq, Eq, Debug)]
pub enum AssignOperator {
    Plain,
    Compound(Arithmetic),
}

/// An operator before its operand (C11 6.5.3.3).
#[derive(Clone, Copy, PartialEq, Eq, Debug)]
pub enum UnaryOperator {
    Plus,
    Minus,
    Complement,
    Not,
}

/// `++` or `--`.
#[derive(Clone, Copy, PartialEq, Eq, Debug)]
pub enum StepOperator {
    Increment,
    Decrement,
}

/// The words of a type, in their order (C11 6.7.2).
#[derive(Clone, Copy, PartialEq, Eq, Debug)]
pub enum TypeWords {
    Char,
    SignedChar,
    CharSigned,
    UnsignedChar,
    CharUnsigned,
    Int,
    Signed,
    SignedInt,
    IntSigned,
    Unsigned,
    UnsignedInt,
    IntUnsigned,
}

#[derive(Drop)]
pub enum Expr {
    Comma(At, Boxed<Expr>, Boxed<Expr>),
    Assign(At, Boxed<Expr>, AssignOperator, Boxed<Expr>),
    Conditional(At, Boxed<Expr>, Boxed<Expr>, Boxed<Expr>),
    Binary(At, Boxed<Expr>, BinaryOperator, Boxed<Expr>),
    Cast(At, TypeWords, Boxed<Expr>),
    Unary(At, UnaryOperator, Boxed<Expr>),
    /// A step before its operand.
    Before(At, StepOperator, Boxed<Expr>),
    /// A step behind its operand.
    After(At, Boxed<Expr>, StepOperator),
    Name(At, Items<u8>),
    Element(At, Items<u8>, Boxed<Expr>),
    Call(At, Items<u8>, Items<Expr>),
    Number {
        at: At,
        value: u64,
        decimal: bool,
        unsigned: bool,
    },
    Character(At, i32),
    Paren(At, Boxed<Expr>),
}

impl Expr {
    /// The place of the expression's first token.
    #[tactic(auto, unfolding(crate::specs::Places::place_of))]
    pub fn place(&self) -> At
        ensures { result ≡ place_of self.now }
    {
        match self {
            Expr::Comma(at, ..) => *at,
            Expr::Assign(at, ..) => *at,
            Expr::Conditional(at, ..) => *at,
            Expr::Binary(at, ..) => *at,
            Expr::Cast(at, ..) => *at,
            Expr::Unary(at, ..) => *at,
            Expr::Before(at, ..) => *at,
            Expr::After(at, ..) => *at,
            Expr::Name(at, _) => *at,
            Expr::Element(at, ..) => *at,
            Expr::Call(at, ..) => *at,
            Expr::Number { at, .. } => *at,
            Expr::Character(at, _) => *at,
            Expr::Paren(at, _) => *at,
        }
    }
}

/// What stands in the brackets of a declared name.
#[derive(Drop)]
pub enum Size {
    /// No brackets.
    Scalar,
    /// Empty brackets.
    Absent,
    Given(Expr),
}

#[derive(Drop)]
pub enum Initialiser {
    Absent,
    Value(Expr),
    /// The place of the brace, the values in braces, and whether a comma stands behind the last one.
    List(At, Items<Expr>, bool),
}

/// A name where it is declared (C11 6.4.2).
#[derive(Drop)]
pub struct Identifier {
    pub at: At,
    pub bytes: Items<u8>,
}

/// An object of a declaration, which begins with its name.
#[derive(Drop)]
pub struct Item {
    pub name: Identifier,
    pub size: Size,
    pub initialiser: Initialiser,
}

/// What a function gives.
#[derive(Clone, Copy, PartialEq, Eq, Debug)]
pub enum Return {
    Void,
    Value(TypeWords),
}

#[derive(Drop)]
pub struct Parameter {
    pub at: At,
    pub words: TypeWords,
    pub name: Option<Identifier>,
}

#[derive(Drop)]
pub enum Parameters {
    /// Nothing between the parentheses.
    Empty,
    /// The word `void`.
    Void,
    List(Items<Parameter>),
}

#[derive(Drop)]
pub enum Declaration {
    Objects(At, TypeWords, Items<Item>),
    Function(At, Return, Identifier, Parameters),
}

/// What stands before the first semicolon of a `for`.
#[derive(Drop)]
pub enum Start {
    Absent,
    Value(Expr),
    Declared(Declaration),
}

/// A statement (C11 6.8), or a declaration in a block.
#[derive(Drop)]
pub enum Statement {
    Block(At, Items<Statement>),
    Declared(Declaration),
    /// An expression statement; without an expression the null statement.
    Evaluate(At, Option<Expr>),
    If(At, Expr, Boxed<Statement>, Option<Boxed<Statement>>),
    While(At, Expr, Boxed<Statement>),
    DoWhile(At, Boxed<Statement>, Expr),
    For(At, Start, Option<Expr>, Option<Expr>, Boxed<Statement>),
    /// The statements of a switch's block.
    Switch(At, Expr, Items<Statement>),
    Case(At, Expr, Boxed<Statement>),
    Default(At, Boxed<Statement>),
    Break(At),
    Continue(At),
    Return(At, Option<Expr>),
}

/// A part of a program (C11 6.9).
#[derive(Drop)]
pub enum External {
    /// The line `#include <stdio.h>`.
    Include(At),
    Declared(Declaration),
    Defined {
        at: At,
        gives: Return,
        name: Identifier,
        parameters: Parameters,
        /// The place of the body's brace.
        brace: At,
        body: Items<Statement>,
    },
}

/// A whole source.
#[derive(Drop)]
pub struct Syntax {
    pub parts: Items<External>,
    /// The end of the text, behind its last byte.
    pub end: At,
}
