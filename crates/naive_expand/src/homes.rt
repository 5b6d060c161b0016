//! The homes of temporaries.

ghost use Rattle.std.specs.Prelude.{◌≡◌, ◌+◌, [], ◌∷◌, ◌++◌, IfOk, OnOk, map};
ghost use Rattle.naive_code.specs.Functions.{numbers_from};
ghost use Rattle.naive_builder.specs.Appending.{emitted};

use naive_builder::Builder;
use rtl_tree::NoMemory;

/// The first home behind those in reserve.
const FIRST_HOME: u16 = 16;

fn take(b: &mut Builder, home: u16) -> Result<(), NoMemory>
    ensures homes { OnOk result (b.new.homes ≡ b.old.homes ++ home ∷ []) }
    ensures code { OnOk result (emitted b.new ≡ emitted b.old) }
{
    if b.homes.len() >= 65_536 {
        return Err(NoMemory);
    }
    b.fresh_temporary(home)?;
    Ok(())
}

fn sum(a: u16, b: u16) -> Result<u16, NoMemory>
    ensures { IfOk result (λ n. n ≡ a + b) }
{
    match a.checked_add(b) {
        Some(n) => Ok(n),
        None => Err(NoMemory),
    }
}

/// Each parameter and local scalar has a home.
fn take_scalars(b: &mut Builder, count: u16) -> Result<(), NoMemory>
    ensures homes { OnOk result (b.new.homes ≡ b.old.homes ++ numbers_from 16 count) }
    ensures code { OnOk result (emitted b.new ≡ emitted b.old) }
{
    for i in 0..count {
        take(b, sum(FIRST_HOME, i)?)?;
    }
    Ok(())
}

/// Each depth of evaluation has one.
fn take_depths(b: &mut Builder, first: u16, depths: &[u16]) -> Result<(), NoMemory>
    ensures homes { OnOk result (b.new.homes ≡ b.old.homes ++ map (λ d. first + d) depths.now) }
    ensures code { OnOk result (emitted b.new ≡ emitted b.old) }
{
    for depth in depths {
        take(b, sum(first, *depth)?)?;
    }
    Ok(())
}

/// The temporaries of a function: the scalars, and behind them one for each of the depths.
pub fn take_homes(b: &mut Builder, scalars: u16, depths: &[u16]) -> Result<(), NoMemory>
    ensures homes { OnOk result (b.new.homes ≡ b.old.homes ++ (numbers_from 16 scalars ++ map (λ d. 16 + scalars + d) depths.now)) }
    ensures code { OnOk result (emitted b.new ≡ emitted b.old) }
{
    let first = sum(FIRST_HOME, scalars)?;
    take_scalars(b, scalars)?;
    take_depths(b, first, depths)
}
