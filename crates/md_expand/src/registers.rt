//! The registers of classes, as bits.

ghost use Rattle.std.specs.Prelude.{◌≡◌, ◌<◌, ◌^◌, ℕ, List, unwrap_or, Some, cond, IfOk};
ghost use Rattle.std.specs.Str.{bytes_eq};
ghost use Rattle.md_text.specs.Declarations.{register_bit, register_bits, registers_in, class_bits};
ghost use Rattle.md_forms.specs.Seen.{form_of, declarations_of};
ghost use Rattle.md_expand.specs.Bits.{bits_at, bits_among, bit_among, FitsIn64, FitIn64};

use md_forms::{Declaration, Form};
use rtl_tree::NoMemory;
use sqlite_items::Items;
use std::alloc::Global;
use std::collections::HashMap;

/// Under each name the bits of the register or class of that name.
pub type BitsByName<'a> = HashMap<&'a [u8], u64>;

/// The bits under a name, and 0 where there are none.
pub fn bits_under(bits: &BitsByName<'_>, name: &[u8]) -> u64
    ensures { result ≡ unwrap_or (bits_at bits.now name.now) 0 }
{
    match bits.get(name) {
        Some(found) => *found,
        None => 0,
    }
}

/// One more name with its bits, which hide those under this name so far.
fn with_bits<'a>(
    mut bits: BitsByName<'a>,
    name: &'a [u8],
    named: u64,
) -> Result<BitsByName<'a>, NoMemory>
    ensures { IfOk result (λ more. (other : List ℕ) → bits_at more other
        ≡ cond (bytes_eq name.now other) (Some named) (bits_at bits.entry other)) }
{
    bits.insert(name, named)?;
    Ok(bits)
}

fn bit(number: u64) -> u64
    requires { number < 64 }
    ensures { result ≡ 2 ^ number }
{
    1 << number
}

/// The bits of registers, with that of the register that a form declares.
fn with_register<'a>(bits: BitsByName<'a>, form: &'a Form) -> Result<BitsByName<'a>, NoMemory>
    requires { FitsIn64 (form_of form.now) }
    ensures { IfOk result (λ more. (name : List ℕ) → bits_at more name
        ≡ bit_among (form_of form.now) (bits_at bits.entry) name) }
{
    match form {
        Form::RegisterLine { number, name, .. } => with_bits(
            bits,
            name.as_slice(),
            bit(number.unsigned_abs()),
        ),
        _ => Ok(bits),
    }
}

/// The registers of declarations, with the bit of each name ready to be found.
#[derive(Drop)]
pub struct Registers<'a> {
    pub all: &'a [Declaration],
    bits: BitsByName<'a>,
    ghost has_bits: { (name : List ℕ)
        → unwrap_or (bits_at bits name) 0 ≡ register_bit (registers_in (declarations_of all.now)) name },
}

impl<'a> Registers<'a> {
    /// Of registers of one name the first counts.
    fn new(alloc: Global, all: &'a [Declaration]) -> Result<Registers<'a>, NoMemory>
        requires { FitIn64 (declarations_of all.now) }
        ensures { IfOk result (λ registers. registers.all.now ≡ all.now) }
    {
        let mut bits = HashMap::new(alloc);
        let mut left = all.len();
        while left > 0 {
            left -= 1;
            bits = with_register(bits, &all[left].form)?;
        }
        Ok(Registers { all, bits })
    }

    /// The bits of the registers of these names.
    fn bits_of(&self, names: &[Items<u8>]) -> u64
        ensures { result ≡ register_bits (registers_in (declarations_of self.now.all.now)) names.now }
    {
        let mut bits = 0;
        for name in names {
            bits |= bits_under(&self.bits, name.as_slice());
        }
        bits
    }
}

/// The bits of classes, with those of the class that a form declares.
fn with_class<'a>(
    bits: BitsByName<'a>,
    registers: &Registers<'_>,
    form: &'a Form,
) -> Result<BitsByName<'a>, NoMemory>
    ensures { IfOk result (λ more. (name : List ℕ) → bits_at more name
        ≡ bits_among (registers_in (declarations_of registers.now.all.now)) (form_of form.now) (bits_at bits.entry) name) }
{
    match form {
        Form::ClassLine {
            name,
            registers: names,
        } => {
            let of_class = registers.bits_of(names.as_slice());
            with_bits(bits, name.as_slice(), of_class)
        }
        _ => Ok(bits),
    }
}

/// The registers of each class, a bit for each. Of classes of one name the first counts.
pub fn bits_by_class<'a>(alloc: Global, all: &'a [Declaration]) -> Result<BitsByName<'a>, NoMemory>
    requires { FitIn64 (declarations_of all.now) }
    ensures { IfOk result (λ bits. (name : List ℕ)
        → unwrap_or (bits_at bits name) 0 ≡ class_bits (declarations_of all.now) name) }
{
    let registers = Registers::new(alloc, all)?;
    let mut bits = HashMap::new(alloc);
    let mut left = all.len();
    while left > 0 {
        left -= 1;
        bits = with_class(bits, &registers, &all[left].form)?;
    }
    Ok(bits)
}
