// What programs are seen to do, and when one program does what another does.
//
// Whatever runs, a source program, code with temporaries or a machine, is seen as a run: for each bound on
// its turns the bytes that were printed, and whether it goes on, ended with a status, or failed. `Same` says in
// three parts that a target does what its source does: it ends where the source ends, does nothing else,
// and prints all that the source prints. `Keep` says it of two programs on each input of bytes on which the old one never fails.
//
// The crate promises laws of these alone, so its functions do nothing. `Same` is reflexive on runs that never fail and
// on no others; `Keep` is reflexive; both are transitive, and so compose along the passes of a compiler. Several laws give
// `Same` from less. The laws over every machine, above all that a simulation gives `Same` and `Keep`, also one in which
// a step of the source is several of the target or none, are lemmas of proofs/Stepping, proofs/Simulation and proofs/Stuttering.
#![tactic(auto)]

pub mod counterexamples;
pub mod examples;
pub mod laws;
