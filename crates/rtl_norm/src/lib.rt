//! The normal form of a transfer tree.
//!
//! A tree is rewritten from the leaves up: at each node the first rule that applies is used, until none applies. The rules,
//! N1 to N13, stand in `specs/Rules.antt`, one small definition each, and `norm` in `specs/Normal.antt`. Proved here of the
//! definition: the rewriting at a node ends because no rule is left that applies, no rule applies anywhere in a normal form,
//! the normal form of a normal form is itself, and numbers that are words stay words. `rtl_simplify` computes it.
#![tactic(auto)]

ghost use Rattle.std.specs.Prelude.{◌≡◌, ℕ, Some, None};
ghost use Rattle.rtl_word.specs.Words.{IsWordSize};
ghost use Rattle.rtl_tree.specs.Trees.{Tree};
ghost use Rattle.std.specs.Prelude.{List};
ghost use Rattle.std.specs.List.{All};
ghost use Rattle.rtl_tree.specs.Moves.{Move};
ghost use Rattle.rtl_norm.specs.Transfers.{norm_moves, IsMoveFitting};
ghost use Rattle.rtl_tree.specs.Sorts.{IsFitting};
ghost use Rattle.rtl_norm.specs.Normal.{step, finish, norm, IsNormal};

/// What is left of a node by its rules: each rule leads to it, and none applies to it.
#[tactic(auto, using(crate::proofs::Finish::finish_step, crate::proofs::Finish::finish_settled))]
pub fn node_is_settled()
    ensures same { (w : ℕ) (t u : Tree) → step w t ≡ Some u → finish w t ≡ finish w u }
    ensures settled { (w : ℕ) (t : Tree) → step w (finish w t) ≡ None }
{}

/// No rule applies anywhere in a normal form, and it is its own normal form.
#[tactic(auto, using(crate::proofs::Settled::norm_normal, crate::proofs::Settled::norm_norm))]
pub fn normal_form_is_normal()
    ensures normal { (w : ℕ) (t : Tree) → IsNormal w (norm w t) }
    ensures idempotent { (w : ℕ) (t : Tree) → norm w (norm w t) ≡ norm w t }
{}

/// The numbers of a normal form are words where those of the tree are.
#[tactic(auto, using(crate::proofs::Finish::norm_fits))]
pub fn normal_form_fits()
    ensures { (w : ℕ) (t : Tree) → IsWordSize w → IsFitting w t → IsFitting w (norm w t) }
{}

/// The normal form of a transfer is its own normal form, and its numbers are words where those of the transfer are.
#[tactic(auto, using(crate::proofs::Stored::moves_twice, crate::proofs::Stored::moves_fit))]
pub fn normal_transfer_is_normal()
    ensures idempotent { (w : ℕ) (ms : List Move) → norm_moves w (norm_moves w ms) ≡ norm_moves w ms }
    ensures fits { (w : ℕ) (ms : List Move) → IsWordSize w → All (IsMoveFitting w) ms → All (IsMoveFitting w) (norm_moves w ms) }
{}
