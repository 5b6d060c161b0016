//! `show`: a description that comes with the program.

ghost use Rattle.std.specs.Prelude.{◌≡◌};
ghost use Rattle.vpo_top.specs.Commands.{IsShown};
ghost use Rattle.vpo_top.specs.Answer.{machine_of};
ghost use Rattle.vpo_top.specs.Faults.{HasWriteCause};

use shipped::Shipped;
use vp_io::{Outcome, Sink, write_whole};

/// Writes the description of the machine of this number.
pub fn show_to<K: Sink>(which: u8, output: &mut K) -> Outcome
    ensures answer { IsShown (machine_of which) (K.written output.old) (K.written output.new) result }
    ensures cause { HasWriteCause (K.faults output.old) (K.faults output.new) result }
{
    match write_whole(output, machine(which).text()) {
        Ok(()) => Outcome::Done(0),
        Err(_) => Outcome::WriteFault,
    }
}

fn machine(which: u8) -> Shipped
    ensures { result ≡ machine_of which }
{
    match which {
        0 => Shipped::Pdp11,
        _ => Shipped::Mips,
    }
}
