//! What an expression stands among.

ghost use Rattle.std.specs.Prelude.{◌≡◌, Some, if◌then◌else◌};
ghost use Rattle.c_typing.specs.Scopes.{meaning};
ghost use Rattle.c_typing.specs.Expressions.{is_macro};
ghost use Rattle.c_typing.specs.declared.names.Meaning.TheVariants as means;
ghost use Rattle.c_names.specs.Known.{entries_of};

use c_conversions::is_macro;
use c_names::Names;
use c_typing::{Meaning, Signature};

/// The names that are declared so far, the functions' types, and whether the include stands above.
#[derive(Clone, Copy)]
pub struct Scene<'a> {
    pub names: &'a Names<'a>,
    pub signatures: &'a [Signature],
    pub included: bool,
}

impl<'a> Scene<'a> {
    pub fn find(&self, name: &[u8]) -> Option<Meaning>
        ensures { result ≡ (if is_macro self.now.included name.now then Some means.EndOfFile else meaning (entries_of self.now.names.now.entries.items) name.now) }
    {
        if is_macro(self.included, name) {
            return Some(Meaning::EndOfFile);
        }
        self.names.find(name)
    }
}
