//! Scopes, and what goes along from statement to statement: names, objects and the labels of a switch (C11 6.2.1, 6.8.1);
//! and the names that may not be declared.
#![tactic(auto)]

mod around;
mod forbidden;
mod label_list;
mod labels;
mod lists;
mod state;

pub use around::{in_block, in_switch, looped, plain};
pub use forbidden::{
    is_forbidden_function, is_forbidden_object, is_getchar, is_putchar, parameter_type,
    return_type, same_parameters,
};
pub use label_list::Labels;
pub use labels::{tell_case, tell_label, with_case, with_label, with_labels, without_labels};
pub use lists::with_item;
pub use state::{State, leave};
