//! What stands around a statement.

ghost use Rattle.std.specs.Prelude.{◌≡◌};
ghost use Rattle.c_typing.specs.Statements as spec;
ghost use Rattle.c_scopes.specs.Here.{here_of};

use crate::state::State;
use c_typing::Around;

/// Of one that isn't directly in a switch's block.
pub fn plain(c: Around) -> Around
    ensures { result ≡ spec.plain c }
{
    Around {
        result: c.result,
        start: c.start,
        labels_stand: false,
        loops: c.loops,
        breaks: c.breaks,
    }
}

/// Of a loop's body.
pub fn looped(c: Around) -> Around
    ensures { result ≡ spec.looped c }
{
    Around {
        result: c.result,
        start: c.start,
        labels_stand: false,
        loops: true,
        breaks: true,
    }
}

/// Of the statements of a block, which is a scope.
pub fn in_block(c: Around, state: &State<'_>) -> Around
    ensures { result ≡ spec.in_block c (here_of state.now) }
{
    let start = state.names.count();
    Around {
        result: c.result,
        start,
        labels_stand: false,
        loops: c.loops,
        breaks: c.breaks,
    }
}

/// Of the statements of a switch's block.
pub fn in_switch(c: Around, state: &State<'_>) -> Around
    ensures { result ≡ spec.in_switch c (here_of state.now) }
{
    let start = state.names.count();
    Around {
        result: c.result,
        start,
        labels_stand: true,
        loops: c.loops,
        breaks: true,
    }
}
