//! The law of trees that may be expanded.

ghost use Rattle.naive_ready.specs.Laws.{TypedMayBeExpanded};

use c_sound::typed_is_meant;
use naive_fits::laws::limits_bound;
use naive_regular::laws::{regular_fills_lists, regular_is_expandable, typed_is_regular};
use naive_typed::{typed_is_sound, typed_names_scalars};

/// The typed tree of a text within the limits may be expanded, where the description has its operators.
pub fn typed_may_be_expanded()
    ensures { TypedMayBeExpanded }
{
    typed_is_meant();
    limits_bound();
    regular_fills_lists();
    regular_is_expandable();
    typed_is_regular();
    typed_is_sound();
    typed_names_scalars();
}
