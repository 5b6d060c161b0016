//! What may stand in place of a hole.

ghost use Rattle.std.specs.Prelude.{◌≡◌, ◌∷◌, [], length};
ghost use Rattle.std.specs.Option.{option_map_or};
ghost use Rattle.md_text.specs.Pieces.{slots};
ghost use Rattle.md_text.specs.Expansion.{fillings, holes_in, itself, taken_by};
ghost use Rattle.md_forms.specs.Seen.{kind_of, pieces_of};
ghost use Rattle.md_expand.specs.Scope.{declared_in, filling_in, fillings_in};

use crate::modes::Filling;
use crate::scope::Scope;
use md_forms::{Kind, Piece};

/// The alternatives of the mode that a hole of this kind is for, in order, if it is for one.
pub fn alternatives_for<'s, 'a>(scope: &'s Scope<'a>, kind: &Kind) -> Option<&'s [Filling<'a>]>
    ensures { option_map_or (λ found. fillings_in scope.now found.now) result
        (itself (taken_by scope.now.width (declared_in scope.now) (kind_of kind.now)) ∷ [])
        ≡ fillings scope.now.width (declared_in scope.now) (kind_of kind.now) }
{
    let Kind::Named(name) = kind else {
        return None;
    };
    scope.alternatives_of(name.as_slice())
}

fn slot_count(text: &[Piece]) -> usize
    ensures { result ≡ length (slots (pieces_of text.now)) }
{
    let mut count = 0;
    for piece in text {
        if let Piece::Hole(_) = piece {
            count += 1;
        }
    }
    count
}

/// How many holes stand in a filling's text.
pub fn hole_count(scope: &Scope<'_>, filling: &Filling<'_>) -> usize
    ensures { result ≡ length (holes_in (filling_in scope.now filling.now).text) }
{
    match filling {
        Filling::Itself(_) => 1,
        Filling::Alternative { text, .. } => slot_count(text),
    }
}
