//! Typed trees that mean something throughout: each name stands for an object of the kind as which it is used, each callee
//! for a function, each constant for a word. Typing makes no other, and such a source never comes to act 0, which is none of C's.
#![tactic(auto)]

mod law;

pub use law::{meant_never_act_zero, typed_is_meant, typed_never_act_zero};
