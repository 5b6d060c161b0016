//! Typing by example: the typed tree of a source, or the rule that is told and its place, and the sizes of typed trees, each worked
//! out by hand. What the form of these tests costs is said in [`c_examples`].
#![tactic(auto)]

#[cfg(test)]
mod measures;
#[cfg(test)]
mod refused_names;
#[cfg(test)]
mod refused_statements;
#[cfg(test)]
mod refused_twice;
#[cfg(test)]
mod refused_uses;
#[cfg(test)]
mod refused_values;
#[cfg(test)]
mod rows;
#[cfg(test)]
mod typed_trees;
#[cfg(test)]
mod typing;
