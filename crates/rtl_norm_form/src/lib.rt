//! What the normal form of a transfer keeps of its form.
//!
//! The functions of this crate have no code: each is a law of the definitions in `rtl_norm`. `proofs/Leaves.antt` has the law of the
//! leaves for any property of leaves that each word has, for crates that need it of a property of theirs.
#![tactic(auto)]

ghost use Rattle.std.specs.Prelude.{ℕ, ◌⊎◌, List};
ghost use Rattle.rtl_word.specs.Words.{IsWordSize};
ghost use Rattle.rtl_tree.specs.Trees.{Tree};
ghost use Rattle.rtl_tree.specs.Moves.{Move};
ghost use Rattle.rtl_tree.specs.WellFormed.{IsWellFormed};
ghost use Rattle.rtl_norm.specs.Transfers.{norm_move, norm_moves, IsMoveFitting};
ghost use Rattle.rtl_norm_form.specs.Leaves.{IsLeafOfMove, IsWord};

/// The normal form of a well-formed transfer is well formed.
pub fn normal_transfer_is_well_formed()
    ensures { (w : ℕ) (ms : List Move) → IsWellFormed ms → IsWellFormed (norm_moves w ms) }
{}

/// Each leaf of the normal form of an assignment is a leaf of the assignment, or a number that is a word. So the normal form can be
/// printed where the transfer can.
pub fn normal_transfer_is_printable()
    ensures { (w : ℕ) (m : Move) (u : Tree) → IsWordSize w → IsMoveFitting w m → IsLeafOfMove u (norm_move w m) → IsLeafOfMove u m ⊎ IsWord w u }
{}
