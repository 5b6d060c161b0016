//! What each assignment does to a point that stands for the storage of a source: it stands for the storage that the source then has.
#![tactic(auto)]
