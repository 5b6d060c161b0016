//! A list of labels in which one is found at once.

ghost use Rattle.std.specs.Prelude.{◌≡◌, [], ◌∷◌, ◌++◌, IfOk};
ghost use Rattle.c_typing.specs.Statements as spec;

use c_names::NoMemory;
use sqlite_items::Items;
use std::alloc::Global;
use std::collections::HashSet;
use std::marker::Model;

/// The labels of a switch in their order (None: `default`), which contracts see, and by value, which questions ask.
#[derive(Drop)]
pub struct Labels {
    list: Items<Option<u32>>,
    values: HashSet<Option<u32>>,
}

impl Model for Labels {
    ghost use Rattle.std.specs.Prelude.{ℕ, List, Option};
    ghost use Rattle.c_scopes.specs.Values.{HoldsLabels};

    ghost Value = { List (Option ℕ) };

    ghost view = { λ l. l.list };

    ghost invariant = { λ l. HoldsLabels l.list l.values };
}

impl Labels {
    pub fn new(alloc: Global) -> Labels
        ensures { result ≡ [] }
    {
        Labels {
            list: Items::new(alloc),
            values: HashSet::new(alloc),
        }
    }

    pub fn has(&self, label: Option<u32>) -> bool
        ensures { result ≡ spec.among label self.now }
    {
        self.values.contains(&label)
    }

    /// With one more, which may be there.
    pub fn with(self, label: Option<u32>) -> Result<Labels, NoMemory>
        ensures { IfOk result (λ labels. labels ≡ self ++ label ∷ []) }
    {
        let Labels {
            mut list,
            mut values,
        } = self;
        values.insert(label)?;
        list.push(label)?;
        Ok(Labels { list, values })
    }
}
