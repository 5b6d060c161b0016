//! Where the objects of a function are kept.

ghost use Rattle.std.specs.Prelude.{◌≡◌, ◌⊎◌, ◌+◌, ◌<◌, ◌≤◌, ◌^◌, ℕ, List, [], IfOk, OnOk, map, slice_get};
ghost use Rattle.c_tree.specs.declared.typed.Static.{Static as FileObject};
ghost use Rattle.c_tree.specs.declared.typed.Typed.{Typed as Source};
ghost use Rattle.c_limits.specs.Frames.{array_bytes as array_size, array_in, element_bytes as element_size, scalar_in, word_bytes as word_size};
ghost use Rattle.naive_code.specs.Storage as place;
ghost use Rattle.naive_code.specs.Storage.{arrays_from};
ghost use Rattle.naive_code.specs.Functions.{site_of as site_in};
ghost use Rattle.naive_expr.specs.Seen.{entry_of, places_of, site_of, storage_of};
ghost use Rattle.naive_expr.specs.Tables.{IsSiteOf, locals_from, statics_from};

use c_tree::typed::Variable;
use c_tree::{CType, Function, Object, Static};
use rtl_tree::NoMemory;
use sqlite_items::{Items, at};
use std::alloc::Global;

/// Where an array begins.
#[derive(Clone, Copy, Debug, PartialEq, Eq)]
pub enum Base {
    /// At the address of an object of the file, by its number in the tree.
    Symbol(u32),
    /// So many bytes from the stack register on.
    Frame(u32),
}

/// Where an object is kept.
#[derive(Clone, Copy, Debug, PartialEq, Eq)]
pub enum Storage {
    Temporary(u16),
    /// The word at the address of an object of the file.
    Word(u32),
    /// The elements of an array, which are of a type.
    Elements(Base, CType),
    /// There is no such object.
    Missing,
}

/// The bits of a word, and where the objects of the file and the locals of a function are kept. A parameter has the temporary of its
/// number.
#[derive(Drop)]
pub struct Site {
    pub bits: u32,
    pub statics: Items<Storage>,
    pub locals: Items<Storage>,
}

pub fn word_bytes(bits: u32) -> u32
    ensures bytes { result ≡ word_size bits }
    ensures size { (result ≡ 2) ⊎ (result ≡ 4) }
{
    if bits == 16 { 2 } else { 4 }
}

pub fn element_bytes(bits: u32, of: CType) -> u32
    ensures bytes { result ≡ element_size bits of }
    ensures small { result ≤ 4 }
{
    match of {
        CType::Schar => 1,
        CType::Uchar => 1,
        _ => word_bytes(bits),
    }
}

fn array_bytes(bits: u32, of: CType, length: u32) -> u64
    ensures bytes { result ≡ array_size bits of length }
    ensures fits { result < 2 ^ 40 }
{
    let word = u64::from(word_bytes(bits));
    let bytes = u64::from(length) * u64::from(element_bytes(bits, of));
    (bytes + (word - 1)) / word * word
}

fn entry(table: &[Storage], x: u32) -> Storage
    ensures { storage_of result ≡ entry_of (slice_get table.now x) }
{
    match at(table, x as usize) {
        None => Storage::Missing,
        Some(storage) => *storage,
    }
}

fn parameter(x: u32) -> Result<Storage, NoMemory>
    ensures { IfOk result (λ s. storage_of s ≡ place.Temporary x) }
{
    let Ok(temp) = u16::try_from(x) else {
        return Err(NoMemory);
    };
    Ok(Storage::Temporary(temp))
}

fn static_storage(x: u32, object: &Object) -> Storage
    ensures { storage_of result ≡ place.static_storage x object.now.element object.now.length }
{
    match object.length {
        None => Storage::Word(x),
        Some(_) => Storage::Elements(Base::Symbol(x), object.element),
    }
}

fn statics_of(alloc: Global, statics: &[Static]) -> Result<Items<Storage>, NoMemory>
    ensures { IfOk result (λ made. map storage_of made ≡ statics_from 0 statics.now) }
{
    let mut made = Items::new(alloc);
    let mut x: u32 = 0;
    for s in statics {
        made.push(static_storage(x, &s.object))?;
        x = next_number(x)?;
    }
    Ok(made)
}

fn next_number(x: u32) -> Result<u32, NoMemory>
    ensures { IfOk result (λ y. y ≡ x + 1) }
{
    match x.checked_add(1) {
        Some(y) => Ok(y),
        None => Err(NoMemory),
    }
}

fn local_storage(object: &Object, temp: u16, offset: u32) -> Storage
    ensures { storage_of result ≡ place.local_storage temp offset object.now.element object.now.length }
{
    match object.length {
        None => Storage::Temporary(temp),
        Some(_) => Storage::Elements(Base::Frame(offset), object.element),
    }
}

fn temp_behind(object: &Object, temp: u16) -> Result<u16, NoMemory>
    ensures { IfOk result (λ t. t ≡ temp + scalar_in object.now.length) }
{
    if object.length.is_some() {
        return Ok(temp);
    }
    match temp.checked_add(1) {
        Some(next) => Ok(next),
        None => Err(NoMemory),
    }
}

fn offset_behind(bits: u32, object: &Object, offset: u32) -> Result<u32, NoMemory>
    ensures { IfOk result (λ k. k ≡ offset + array_in bits object.now.element object.now.length) }
{
    let Some(length) = object.length else {
        return Ok(offset);
    };
    let Ok(bytes) = u32::try_from(array_bytes(bits, object.element, length)) else {
        return Err(NoMemory);
    };
    match offset.checked_add(bytes) {
        Some(next) => Ok(next),
        None => Err(NoMemory),
    }
}

/// Where locals are kept: the scalars in temporaries from one on, the arrays from an offset on.
fn locals_of(
    alloc: Global,
    bits: u32,
    locals: &[Object],
    temp: u16,
    offset: u32,
) -> Result<Items<Storage>, NoMemory>
    ensures { IfOk result (λ made. map storage_of made ≡ locals_from bits temp offset locals.now) }
{
    let mut made = Items::new(alloc);
    let mut temp = temp;
    let mut offset = offset;
    for object in locals {
        made.push(local_storage(object, temp, offset))?;
        temp = temp_behind(object, temp)?;
        offset = offset_behind(bits, object, offset)?;
    }
    Ok(made)
}

impl Site {
    /// The site of a source's functions, before the first of them is entered.
    pub fn new(alloc: Global, bits: u32, statics: &[Static]) -> Result<Site, NoMemory>
        ensures { IfOk result (λ s. IsSiteOf bits statics.now s) }
    {
        Ok(Site {
            bits,
            statics: statics_of(alloc, statics)?,
            locals: Items::new(alloc),
        })
    }

    /// Enters a function whose arrays begin so many bytes above the stack register.
    pub fn enter(&mut self, alloc: Global, f: &Function, arrays: u32) -> Result<(), NoMemory>
        requires { arrays ≡ arrays_from [] self.old.bits f.now }
        ensures site { OnOk result ((w : ℕ) (t : Source) → IsSiteOf w t.statics self.old → site_of self.new ≡ site_in [] w t f.now) }
        ensures same { OnOk result ((w : ℕ) (ss : List FileObject) → IsSiteOf w ss self.old → IsSiteOf w ss self.new) }
    {
        let Ok(temp) = u16::try_from(f.params.len()) else {
            return Err(NoMemory);
        };
        self.locals = locals_of(alloc, self.bits, f.locals.as_slice(), temp, arrays)?;
        Ok(())
    }

    /// Where an object is kept. A parameter whose number no temporary has is answered as want of memory.
    pub fn storage(&self, x: Variable) -> Result<Storage, NoMemory>
        ensures { IfOk result (λ s. storage_of s ≡ places_of self.now x) }
    {
        match x {
            Variable::Static(x) => Ok(entry(self.statics.as_slice(), x)),
            Variable::Local(x) => Ok(entry(self.locals.as_slice(), x)),
            Variable::Parameter(x) => parameter(x),
        }
    }
}
