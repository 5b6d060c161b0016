//! What typing promises of its trees beside soundness, and that naive code can be made of such trees.
//!
//! The functions of this crate have no code. specs/Regular.antt: each value of a case is a word, each list of initialisers has a value, and
//! no function has more than 16 parameters. specs/Operators.antt: the operators of a tree are among those of a description. With both, naive
//! code can be made of the tree (specs/Laws.antt).
#![tactic(auto)]

pub mod laws;
