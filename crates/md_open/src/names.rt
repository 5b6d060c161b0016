//! The names by which trees and transfers of a description are read.

ghost use Rattle.std.specs.Prelude.{◌≡◌, []};

use rtl_tree::{NameList, Names};
use std::alloc::Global;

/// A description mentions no object and no function.
pub fn no_names(alloc: Global) -> Names
    ensures objects { result.objects ≡ [] }
    ensures functions { result.functions ≡ [] }
{
    Names {
        objects: NameList::new(alloc),
        functions: NameList::new(alloc),
    }
}
