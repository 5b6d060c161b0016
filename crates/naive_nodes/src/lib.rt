//! Each expression's code does what the expression does: one relation between the folds.
#![tactic(auto)]
