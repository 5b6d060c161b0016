//! The labels of a switch.

ghost use Rattle.std.specs.Prelude.{◌≡◌, ◌&&◌, not, Some, IfOk};
ghost use Rattle.c_typing.specs.Faults.{notes};
ghost use Rattle.c_typing.specs.Expressions.{broken_if};
ghost use Rattle.c_typing.specs.Statements as spec;
ghost use Rattle.c_scopes.specs.Here.{here_of};

use crate::label_list::Labels;
use crate::state::State;
use c_conversions::Told;
use c_names::NoMemory;
use c_tree::At;
use c_typing::Around;
use std::alloc::Global;

/// Tells of a label that doesn't stand in a switch's block, or that stands there twice.
pub fn tell_label(
    told: &mut Told,
    around: Around,
    state: &State<'_>,
    at: At,
    value_at: At,
    label: Option<u32>,
)
    ensures { told.new.first ≡ notes told.old.first (spec.label_faults around (here_of state.now) at value_at label) }
{
    told.tell_if(!around.labels_stand, 28, at);
    let twice = around.labels_stand && state.labels.has(label);
    told.tell_if(twice, 29, value_at);
}

/// A faulty value is no label.
pub fn tell_case(
    told: &mut Told,
    around: Around,
    state: &State<'_>,
    at: At,
    value_at: At,
    value: Option<u32>,
)
    ensures { told.new.first ≡ notes told.old.first (spec.case_faults around (here_of state.now) at value_at value) }
{
    match value {
        None => told.tell_if(!around.labels_stand, 28, at),
        Some(v) => tell_label(told, around, state, at, value_at, Some(v)),
    }
}

/// With one more label, where labels stand.
pub fn with_label<'a>(
    around: Around,
    state: State<'a>,
    label: Option<u32>,
) -> Result<State<'a>, NoMemory>
    ensures { IfOk result (λ s. here_of s ≡ spec.with_label around (here_of state.entry) label) }
{
    if !around.labels_stand {
        return Ok(state);
    }
    let State {
        names,
        locals,
        labels,
    } = state;
    let labels = labels.with(label)?;
    Ok(State {
        names,
        locals,
        labels,
    })
}

/// With one more value, where labels stand and it is sound.
pub fn with_case<'a>(
    around: Around,
    state: State<'a>,
    value: Option<u32>,
) -> Result<State<'a>, NoMemory>
    ensures { IfOk result (λ s. here_of s ≡ spec.with_case around (here_of state.entry) value) }
{
    match value {
        None => Ok(state),
        Some(v) => with_label(around, state, Some(v)),
    }
}

/// Without labels, for a switch of its own.
pub fn without_labels<'a>(alloc: Global, state: State<'a>) -> (Labels, State<'a>)
    ensures labels { result.0 ≡ (here_of state.entry).labels }
    ensures here { here_of result.1 ≡ spec.without_labels (here_of state.entry) }
{
    let State {
        names,
        locals,
        labels,
    } = state;
    (
        labels,
        State {
            names,
            locals,
            labels: Labels::new(alloc),
        },
    )
}

/// With the labels of the switch around.
pub fn with_labels<'a>(state: State<'a>, outer: Labels) -> State<'a>
    ensures { here_of result ≡ spec.with_labels (here_of state.entry) outer }
{
    let State { names, locals, .. } = state;
    State {
        names,
        locals,
        labels: outer,
    }
}
