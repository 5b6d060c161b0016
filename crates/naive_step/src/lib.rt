//! The temporary machine, operation by operation: what proofs on naive code stand on.
//!
//! proofs/Doing has what a part of a source run asks of the machine, and how parts compose; Making what a transfer does at a point of a
//! run; Acts what each shape does there.
#![tactic(auto)]
