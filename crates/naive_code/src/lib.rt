//! Naive code: which operations each expression and statement of the typed tree becomes.
//!
//! An operation is a transfer of one of the shapes that each description covers, or what takes one or several of them, or the end of a
//! block (specs/Operations). specs/Storage says where objects are kept, specs/Expressions and Statements have an equation for each node,
//! and specs/Functions has a whole function with its homes. specs/Worked has nodes and statements of a line each, with their operations.
#![tactic(auto)]

mod worked;

pub use worked::operations;
