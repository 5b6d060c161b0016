//! The line that is written to the error stream.

ghost use Rattle.std.specs.Prelude.{◌≡◌, ◌+◌, ◌≤◌, ◌++◌, length, decimal};
ghost use Rattle.arrayvec.specs.ArrayString.{array_string_len};
ghost use Rattle.vpo_top.specs.Outside.{sink_of};
ghost use Rattle.vpo_top.specs.Messages.{input_name, complaint, message, IsReported, IsLineWritten};

use arrayvec::ArrayString;
use itoa::Buffer;
use vp_io::{Outcome, Reason, Sink, Which, write_whole};

/// The room of a line. The longest, on a bad description, takes 58 bytes.
const ROOM: usize = 128;

type Line = ArrayString<ROOM>;

/// Says on the error stream what the outcome is, where it isn't as asked, and gives it back. A failure of the stream has no effect but
/// there.
pub fn report<E: Sink>(outcome: Outcome, errors: &mut E) -> Outcome
    ensures same { result ≡ outcome }
    ensures line { IsReported outcome (sink_of E.written E.faults errors.old) (sink_of E.written E.faults errors.new) }
{
    if let Outcome::Done(_) = outcome {
        return outcome;
    }
    let line = message_of(&outcome);
    write_line(errors, line.as_bytes());
    outcome
}

fn write_line<E: Sink>(errors: &mut E, line: &[u8])
    ensures { IsLineWritten line.now (E.written errors.old) (E.written errors.new) (E.faults errors.old) (E.faults errors.new) }
{
    match write_whole(errors, line) {
        Ok(()) => {}
        Err(_) => {}
    }
}

fn message_of(outcome: &Outcome) -> Line
    ensures { result.bytes ≡ message outcome.now }
{
    let mut line = Line::new();
    line.push_str("vpo: ");
    push_complaint(&mut line, outcome);
    line.push_str("\n");
    line
}

fn push_complaint(line: &mut Line, outcome: &Outcome)
    requires { array_string_len line.old ≤ 5 }
    ensures text { line.new.bytes ≡ line.old.bytes ++ complaint outcome.now }
    ensures room { array_string_len line.new ≤ 127 }
{
    match outcome {
        Outcome::Done(_) => {}
        Outcome::NoMemory => line.push_str("no memory"),
        Outcome::BadWords => line.push_str("bad words"),
        Outcome::FileTooLong(which) => {
            line.push_str("file too long: ");
            line.push_str(name_of(*which));
        }
        Outcome::BadDescription(reason) => push_bad_description(line, reason),
        Outcome::BadSource(reason) => push_bad_source(line, reason),
        Outcome::BadAssembly(reason) => push_bad_assembly(line, reason),
        Outcome::ReadFault(which) => {
            line.push_str("read fault: ");
            line.push_str(name_of(*which));
        }
        Outcome::WriteFault => line.push_str("write fault"),
        Outcome::Trapped { kind, place } => {
            line.push_str("trap ");
            push_number(line, u64::from(*kind));
            line.push_str(" at ");
            push_number(line, u64::from(*place));
        }
        Outcome::Spent(steps) => {
            push_number(line, *steps);
            line.push_str(" steps spent");
        }
    }
}

fn push_bad_description(line: &mut Line, reason: &Reason)
    requires { array_string_len line.old ≤ 5 }
    ensures text { line.new.bytes ≡ line.old.bytes ++ complaint (Outcome.BadDescription reason.now) }
    ensures room { array_string_len line.new ≤ 127 }
{
    line.push_str("description line ");
    push_number(line, u64::from(reason.line));
    line.push_str(": rule ");
    push_number(line, u64::from(reason.rule));
    line.push_str(" (");
    push_number(line, u64::from(reason.detail));
    line.push_str(")");
}

fn push_bad_source(line: &mut Line, reason: &Reason)
    requires { array_string_len line.old ≤ 5 }
    ensures text { line.new.bytes ≡ line.old.bytes ++ complaint (Outcome.BadSource reason.now) }
    ensures room { array_string_len line.new ≤ 127 }
{
    line.push_str("source line ");
    push_number(line, u64::from(reason.line));
    line.push_str(" column ");
    push_number(line, u64::from(reason.column));
    line.push_str(": rule ");
    push_number(line, u64::from(reason.rule));
}

fn push_bad_assembly(line: &mut Line, reason: &Reason)
    requires { array_string_len line.old ≤ 5 }
    ensures text { line.new.bytes ≡ line.old.bytes ++ complaint (Outcome.BadAssembly reason.now) }
    ensures room { array_string_len line.new ≤ 127 }
{
    line.push_str("assembly line ");
    push_number(line, u64::from(reason.line));
    line.push_str(": rule ");
    push_number(line, u64::from(reason.rule));
}

fn push_number(line: &mut Line, number: u64)
    requires { array_string_len line.old ≤ 108 }
    ensures text { line.new.bytes ≡ line.old.bytes ++ decimal number }
    ensures room { array_string_len line.new ≤ array_string_len line.old + 20 }
{
    let mut digits = Buffer::new();
    line.push_str(digits.format(number));
}

fn name_of(which: Which) -> &'static str
    ensures text { result.now ≡ input_name which }
    ensures short { length result.now ≤ 11 }
{
    match which {
        Which::Description => "description",
        Which::Text => "source",
        Which::Assembly => "assembly",
        Which::Input => "input",
    }
}
