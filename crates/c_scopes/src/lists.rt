//! Lists of trees, which are gathered as long as each is sound.

ghost use Rattle.std.specs.Prelude.{◌≡◌, IfOk};
ghost use Rattle.c_typing.specs.Statements as spec;

use c_names::NoMemory;
use sqlite_items::Items;

/// One more item.
pub fn with_item<T: Drop>(
    list: Option<Items<T>>,
    x: Option<T>,
) -> Result<Option<Items<T>>, NoMemory>
    ensures { IfOk result (λ r. r ≡ spec.joined list (spec.single x)) }
{
    match list {
        None => Ok(None),
        Some(mut list) => match x {
            None => Ok(None),
            Some(x) => {
                list.push(x)?;
                Ok(Some(list))
            }
        },
    }
}
