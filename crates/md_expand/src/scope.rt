//! What texts are read under.

ghost use Rattle.std.specs.Prelude.{◌≡◌, ◌≢◌, [], ℕ, List, map, unwrap_or, IfOk, IfSome, IsTrue};
ghost use Rattle.std.specs.Option.{option_map_or};
ghost use Rattle.std.specs.Coded.{Π_prop};
ghost use Rattle.md_text.specs.Declarations.{class_bits};
ghost use Rattle.md_text.specs.Expansion.{alternatives_of, filling_of};
ghost use Rattle.md_forms.specs.Seen.{declarations_of};
ghost use Rattle.md_expand.specs.Bits.{bits_at, FitIn64, is_size};
ghost use Rattle.md_expand.specs.Fillings.{all_seen, listed};
ghost use Rattle.md_expand.specs.Sets.{fillings_set};

use crate::modes::{Alternatives, Filling, alternatives_by_mode};
use crate::registers::{BitsByName, bits_by_class, bits_under};
use md_forms::Declaration;
use rtl_tree::NoMemory;
use std::alloc::Global;

/// What texts are read under: the bits of a word, 16 or 32, and the declarations, with the registers of each class and the
/// alternatives of each mode ready to be found.
#[derive(Drop)]
pub struct Scope<'a> {
    pub width: u32,
    pub all: &'a [Declaration],
    bits: BitsByName<'a>,
    alternatives: Alternatives<'a>,
    ghost has_size: { IsTrue (is_size width) },
    ghost has_bits: { (name : List ℕ)
        → unwrap_or (bits_at bits name) 0 ≡ class_bits (declarations_of all.now) name },
    ghost has_alternatives: { let ds = declarations_of all.now in
        (name : List ℕ) → all_seen width ds (listed alternatives name)
        ≡ map (filling_of width ds) (alternatives_of ds name) } by { Π_prop (λ _. fillings_set _ _) },
}

impl<'a> Scope<'a> {
    /// Gathers the registers of each class and the alternatives of each mode. Of classes of one name the first counts.
    pub fn new(alloc: Global, width: u32, all: &'a [Declaration]) -> Result<Scope<'a>, NoMemory>
        requires size { IsTrue (is_size width) }
        requires fit { FitIn64 (declarations_of all.now) }
        ensures width { IfOk result (λ scope. scope.width ≡ width) }
        ensures all { IfOk result (λ scope. scope.all.now ≡ all.now) }
    {
        let bits = bits_by_class(alloc, all)?;
        let alternatives = alternatives_by_mode(alloc, all)?;
        Ok(Scope {
            width,
            all,
            bits,
            alternatives,
        })
    }

    /// The registers of the class of this name, a bit for each, and 0 where there is none.
    pub fn bits_of(&self, name: &[u8]) -> u64
        ensures { result ≡ class_bits (declarations_of self.now.all.now) name.now }
    {
        bits_under(&self.bits, name)
    }

    /// The alternatives of the mode of this name, in order, if there are any.
    pub fn alternatives_of(&self, name: &[u8]) -> Option<&[Filling<'a>]>
        ensures some { IfSome result (λ found. found.now ≢ []) }
        ensures all { let ds = declarations_of self.now.all.now in
            all_seen self.now.width ds (option_map_or (λ found. found.now) result [])
            ≡ map (filling_of self.now.width ds) (alternatives_of ds name.now) }
    {
        let found = self.alternatives.get(name)?;
        if found.is_empty() {
            None
        } else {
            Some(found.as_slice())
        }
    }
}
