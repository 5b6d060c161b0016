//! What a program of a described machine does, as a definition that running it and compiling to it cite.
//!
//! A program (`Code` of specs/Machine) is the transfer of each of its lines, beside its data, labels and symbols. At the start
//! registers hold 0, flags are lost, and memory holds the data and 0 elsewhere; a turn makes the whole effect of one line. What is
//! seen within so many turns is a run in the sense of `behaviour`: it goes on, ended with a status, or trapped at a place.
#![tactic(auto)]

pub mod laws;
pub mod worked;
