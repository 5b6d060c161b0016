//! What goes along from statement to statement.

ghost use Rattle.std.specs.Prelude.{◌≡◌, ◌≤◌, length, take, IfOk};

use crate::label_list::Labels;
use c_names::{Names, NoMemory};
use c_tree::Object;
use sqlite_items::Items;

/// The names that are declared, the function's local objects, and the labels of the switch around (None: `default`).
#[derive(Drop)]
pub struct State<'a> {
    pub names: Names<'a>,
    pub locals: Items<Object>,
    pub labels: Labels,
}

/// Leaves a scope.
pub fn leave<'a>(state: State<'a>, mark: usize) -> Result<State<'a>, NoMemory>
    requires { mark ≤ length state.names.entries.items }
    ensures names { IfOk result (λ s. s.names.entries.items ≡ take mark state.entry.names.entries.items) }
    ensures rest { IfOk result (λ s. (s.locals ≡ state.entry.locals) × (s.labels ≡ state.entry.labels)) }
{
    let State {
        names,
        locals,
        labels,
    } = state;
    let names = names.leave(mark)?;
    Ok(State {
        names,
        locals,
        labels,
    })
}
