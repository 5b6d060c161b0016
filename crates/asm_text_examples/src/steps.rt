//! A program made step by step.

use crate::loading::loaded;
use crate::machines::pdp11;
use md_check::Checked;
use rtl_machine::Stop;
use rtl_word::W16;
use std::alloc::Global;
use vp_io::{MemSink, SafeSource};

const TEXT: &[u8] = b".text\nmov #97,r0\nsys putc\nsys exit\n";

fn room(alloc: Global) -> Option<Vec<u8>> {
    let mut room = Vec::new(alloc);
    room.resize(8, 0).ok()?;
    Some(room)
}

/// What four steps answer, and whether the one byte was written by then.
fn steps(alloc: Global, m: &Checked<W16>) -> Option<([Option<Stop>; 4], bool)> {
    let mut machine = loaded(alloc, m, TEXT)?;
    let mut source = SafeSource::new(Vec::new(alloc));
    let mut sink = MemSink::new(room(alloc)?, 8, Vec::new(alloc));
    let first = machine.step(&mut source, &mut sink);
    let second = machine.step(&mut source, &mut sink);
    let third = machine.step(&mut source, &mut sink);
    let fourth = machine.step(&mut source, &mut sink);
    Some((
        [first, second, third, fourth],
        sink.bytes() == b"a".as_slice(),
    ))
}

#[test]
fn a_program_is_made_step_by_step(rt: HostRuntime) {
    let alloc = rt.alloc();
    let m = pdp11(alloc).expect(&rt, "the pdp11");
    let ended = Some(Stop::Ended(97));
    assert!(rt; steps(alloc, &*m) == Some(([None, None, ended, ended], true)));
}
