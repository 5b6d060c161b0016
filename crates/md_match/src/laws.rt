//! Laws of the search.

ghost use Rattle.std.specs.Prelude.{◌≡◌, length, ℕ, Some, None, Option};
ghost use Rattle.rtl_tree.specs.Trees.{Tree};
ghost use Rattle.md_rows.specs.declared.row.Hole.{Hole};
ghost use Rattle.md_rows.specs.declared.instance.Bound.{Bound};
ghost use Rattle.md_match.specs.Does.{Does, IsDone, IsRow};
ghost use Rattle.md_match.specs.Slots.{Fit, Slots, fit_of, no_slots};
ghost use Rattle.md_match.specs.Find.{find};
ghost use Rattle.std.specs.Prelude.{List};
ghost use Rattle.rtl_tree.specs.Moves.{Move};
ghost use Rattle.md_match.specs.Searches.{Marks, Search, accept, is_flag_of, is_idle, match_all, no_marks};
ghost use Rattle.md_match.specs.Ways.{Choice, Choices, Found, FoundAll, Way, Ways};

/// The search for a tree gives what the first way gives with which it goes on, and nothing exactly where no way goes on.
#[tactic(auto, using(crate::proofs::Ways::find_some, crate::proofs::Ways::find_none))]
pub fn first_way_is_found()
    ensures found { (f : Fit) (r e : Tree) (k : Slots → Option Slots) (s u : Slots) → find f r e k s ≡ Some u → Found f r e k s u }
    ensures none { (f : Fit) (r e : Tree) (k : Slots → Option Slots) (s : Slots) → find f r e k s ≡ None
        → (j : Choice) (v : Slots) → Way f r e j s v → k v ≡ None }
{}

/// The search for a transfer gives what the first list of choices gives that is accepted, and nothing exactly where none is.
#[tactic(auto, using(crate::proofs::Choices::match_some, crate::proofs::Choices::match_none))]
pub fn first_choices_are_found()
    ensures found { (t : Search) (es : List Move) (used : Marks) (s u : Slots) → match_all t es used s ≡ Some u → FoundAll t es used s u }
    ensures none { (t : Search) (es : List Move) (used : Marks) (s : Slots) → match_all t es used s ≡ None
        → (cs : Choices) (left : Marks) (u : Slots) → Ways t es cs used s left u → accept t left u ≡ None }
{}

/// What the search for a transfer finds makes the row do it, and where it finds nothing no binding makes the row do it.
#[tactic(auto, using(crate::proofs::Done::found_done, crate::proofs::Undone::none_done))]
pub fn search_is_exact()
    ensures found { (w g : ℕ) (holes : List Hole) (t : Search) (es : List Move) (u : Slots)
        → t.fit ≡ fit_of w g holes → t.count ≡ length holes → IsRow holes t.row → match_all t es no_marks no_slots ≡ Some u
        → IsDone w g holes (is_idle t.flags t.barred) t.row es u }
    ensures none { (w g : ℕ) (holes : List Hole) (t : Search) (es : List Move)
        → t.fit ≡ fit_of w g holes → t.count ≡ length holes → IsRow holes t.row → match_all t es no_marks no_slots ≡ None
        → (b : List Bound) (marks : Marks) → Does w g holes (is_idle t.flags t.barred) t.row es b marks → ⊥ }
{}

/// Where no register is barred, an assignment is idle exactly where it is to one of the flags.
#[tactic(auto, using(crate::proofs::Barred::idle_to_flags))]
pub fn idle_is_to_flags()
    ensures { (flags : ℕ) (r : Move) → is_idle flags 0 r ≡ is_flag_of flags r.to }
{}
