//! Whole functions.

ghost use Rattle.std.specs.Prelude.{◌≡◌, ◌+◌, ◌*◌, ◌<◌, ◌^◌, [], ◌∷◌, ◌++◌, ℕ, IfOk, OnOk, codes, length};
ghost use Rattle.std.specs.Str.{bytes_eq};
ghost use Rattle.c_tree.specs.declared.typed.Typed.{Typed as Source};
ghost use Rattle.c_limits.specs.Depths.{depth_of, greatest_in};
ghost use Rattle.c_limits.specs.Frames.{frame_bytes, scalars, word_bytes as word_size};
ghost use Rattle.c_meaning.specs.Run.{is_main as is_main_function};
ghost use Rattle.naive_code.specs.Storage.{scalar_count};
ghost use Rattle.naive_code.specs.Functions as code;
ghost use Rattle.naive_expr.specs.Seen.{site_of};
ghost use Rattle.naive_expr.specs.Emitted.{Adds, emitted};
ghost use Rattle.naive_stat.specs.Functions.{AreOperationsOf};

use crate::statements::{Around, expand_stat};
use c_tree::{Function, Object};
use naive_expr::{Emitter, Op, Site, word_bytes};
use rtl_tree::NoMemory;
use std::alloc::Global;

fn scalars_in(objects: &[Object]) -> usize
    ensures { result ≡ scalars objects.now }
{
    let mut count: usize = 0;
    for object in objects {
        if object.length.is_none() {
            count += 1;
        }
    }
    count
}

/// The temporaries of the parameters and local scalars.
pub fn scalars_of(f: &Function) -> Result<u16, NoMemory>
    ensures { IfOk result (λ n. n ≡ scalar_count f.now) }
{
    let count = f
        .params
        .len()
        .saturating_add(scalars_in(f.locals.as_slice()));
    match u16::try_from(count) {
        Ok(count) => Ok(count),
        Err(_) => Err(NoMemory),
    }
}

fn is_main(f: &Function) -> bool
    ensures { result ≡ is_main_function f.now }
{
    f.name.as_slice() == b"main".as_slice()
}

fn parameter_offset(offset: u32, bytes: u32, i: u16) -> Result<u32, NoMemory>
    ensures { IfOk result (λ k. k ≡ offset + bytes * i) }
{
    let Some(words) = bytes.checked_mul(u32::from(i)) else {
        return Err(NoMemory);
    };
    match offset.checked_add(words) {
        Some(k) => Ok(k),
        None => Err(NoMemory),
    }
}

/// Each parameter comes from the words above the frame and what a call pushed.
fn push_entry(out: &mut Emitter, bytes: u32, offset: u32, count: u16) -> Result<(), NoMemory>
    ensures { OnOk result (Adds out.old out.new (code.entry_from bytes offset 0 count) [] 0 0) }
{
    for i in 0..count {
        let k = parameter_offset(offset, bytes, i)?;
        out.emit(Op::LoadHome(i, k))?;
    }
    Ok(())
}

/// `main` that comes to its `}` returns 0 (C11 5.1.2.2.3). Each function takes a temporary for that.
fn push_ending(out: &mut Emitter, is_main: bool) -> Result<(), NoMemory>
    ensures { OnOk result (Adds out.old out.new (code.ending is_main out.old.next_temp) (0 ∷ []) 1 0) }
{
    let t = out.fresh(&[0])?;
    if is_main {
        out.emit(Op::Constant(t, 0))?;
        out.emit(Op::SetResult(t))
    } else {
        Ok(())
    }
}

/// The operations of a function up to its last return, with the depths of its temporaries behind those of parameters and local
/// scalars, whose number is `scalars`. The function was entered in the site; its parameters begin at `offset`, and its first block has the label.
pub fn expand_function(
    alloc: Global,
    site: &Site,
    f: &Function,
    scalars: u16,
    offset: u32,
    label: u32,
) -> Result<Emitter, NoMemory>
    requires scalars { scalars ≡ scalar_count f.now }
    requires label { label + 1 < 2 ^ 32 }
    requires depth { 8 + greatest_in depth_of f.now.body < 2 ^ 16 }
    ensures { IfOk result (λ out. (w pushed : ℕ) (t : Source) → site_of site.now ≡ code.site_of [] w t f.now → offset ≡ frame_bytes [] w f.now + pushed → AreOperationsOf w pushed t f.now label out) }
{
    let Ok(count) = u16::try_from(f.params.len()) else {
        return Err(NoMemory);
    };
    let mut out = Emitter::new(alloc, scalars, label + 1);
    push_entry(&mut out, word_bytes(site.bits), offset, count)?;
    let nowhere = Around {
        breaks: 0,
        continues: 0,
    };
    expand_stat(
        alloc,
        site,
        f.locals.as_slice(),
        &mut out,
        nowhere,
        f.body.get(),
    )?;
    push_ending(&mut out, is_main(f))?;
    Ok(out)
}
