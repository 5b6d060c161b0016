//! Liveness is decided: each routine has a table that tells exactly which cell is live where.
//!
//! [`liveness_is_decided`] has no code. The flow of a routine has finitely many places, and a path that reaches a read goes through cells
//! that the routine sets alone; so the paths through more and more of these pairs are counted up, as Warshall did.
#![tactic(auto)]

ghost use Rattle.live_decided.specs.Decided.{LivenessIsDecided};

/// Each routine has an exact table of what is live.
pub fn liveness_is_decided()
    ensures { LivenessIsDecided }
{}
