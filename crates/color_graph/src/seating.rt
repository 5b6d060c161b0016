//! Registers for temporaries, one after the other.

ghost use Rattle.std.specs.Prelude.{◌≡◌, ◌<◌, ◌&&◌, ◌||◌, ℕ, false, IfOk, List, [], length, slice_index_or};
ghost use Rattle.temp_machine.specs.Routines.{Target};
ghost use Rattle.temp_code.specs.Routines.{routine_of};
ghost use Rattle.color_code.specs.Colors.{IsColoring, IsSparing, Seats};
ghost use Rattle.color_code.specs.Greedy.{Conflicts, first_free as first_free_in, greedy, has_color, is_held, no_seats, seat_for};
ghost use Rattle.flow_live.specs.Tables.{IsLiveness};
ghost use Rattle.color_graph.specs.Sharing.{conflicts_in};
ghost use Rattle.color_graph.specs.Meeting.{HaveHomes};
ghost use Rattle.color_graph.specs.Seats.{AreMarks, below, numbers, seats_in, seats_of};

use crate::graph::{Graph, conflicts};
use color_code::greedy_is_sparing;
use flow_live::Live;
use rtl_tree::NoMemory;
use std::alloc::Global;
use temp_code::Code;

/// For each temporary a register, or None where it is in its home.
#[derive(Drop)]
pub struct Colouring {
    pub seats: Vec<Option<u8>>,
}

/// Marks the register of a temporary.
fn mark(marks: &mut [bool; 256], seat: Option<u8>)
    ensures { (c : ℕ) → slice_index_or marks.new c false ≡ (has_color seat c || slice_index_or marks.old c false) }
{
    if let Some(register) = seat {
        marks[usize::from(register)] = true;
    }
}

fn mark_neighbour(marks: &mut [bool; 256], graph: &Graph, seats: &[Option<u8>], k: usize, j: usize)
    requires first { k < length graph.now.rows.items }
    requires second { j < length graph.now.rows.items }
    requires seat { j < length seats.now }
    ensures { (c : ℕ) → slice_index_or marks.new c false
        ≡ (((conflicts_in graph.now).between k j && has_color (seats_in seats.now j) c) || slice_index_or marks.old c false) }
{
    if graph.conflict(k, j) {
        mark(marks, seats[j]);
    }
}

/// The registers that the neighbours of a temporary hold, of those that have got theirs before.
fn held(graph: &Graph, seats: &[Option<u8>]) -> [bool; 256]
    requires { length seats.now < length graph.now.rows.items }
    ensures { (colors : List ℕ) → AreMarks result (is_held (conflicts_in graph.now) colors (seats_in seats.now) (below (length seats.now)) (length seats.now)) }
{
    let mut marks = [false; 256];
    for j in 0..seats.len() {
        mark_neighbour(&mut marks, graph, seats, seats.len(), j);
    }
    marks
}

fn first_free(marks: &[bool; 256], colours: &[u8]) -> Option<u8>
    ensures { (x : Conflicts) (colors : List ℕ) (seats : Seats) (done : List ℕ) (k : ℕ) → AreMarks marks.now (is_held x colors seats done k)
        → result ≡ first_free_in x colors seats done k colours.now }
{
    match colours {
        [] => None,
        [first, rest @ ..] => {
            if marks[usize::from(*first)] {
                first_free(marks, rest)
            } else {
                Some(*first)
            }
        }
    }
}

/// The register of the temporary behind those that have got theirs.
fn seat(graph: &Graph, seats: &[Option<u8>], colours: &[u8]) -> Option<u8>
    requires { length seats.now < length graph.now.rows.items }
    ensures { result ≡ seat_for (conflicts_in graph.now) colours.now (seats_in seats.now) (below (length seats.now)) (length seats.now) }
{
    if graph.lives_over_call(seats.len()) {
        None
    } else {
        first_free(&held(graph, seats), colours)
    }
}

fn all_seats(alloc: Global, graph: &Graph, colours: &[u8]) -> Result<Vec<Option<u8>>, NoMemory>
    ensures count { IfOk result (λ seats. length seats.items ≡ length graph.now.rows.items) }
    ensures greedy { IfOk result (λ seats. seats_in seats.items
        ≡ greedy (conflicts_in graph.now) colours.now (numbers 0 (length graph.now.rows.items)) [] no_seats) }
{
    let count = graph.rows.len();
    let mut seats = Vec::with_capacity(alloc, count)?;
    while seats.len() < count {
        seats.push(seat(graph, seats.as_slice(), colours))?;
    }
    Ok(seats)
}

/// A colouring of a code, by what is dead at its places: a temporary is in its home only where it lives over a call or its neighbours hold every colour.
pub fn colour_by(
    alloc: Global,
    c: &Code,
    live: &Live,
    colours: &[u8],
) -> Result<Colouring, NoMemory>
    requires homes { HaveHomes (routine_of c.now) }
    ensures count { IfOk result (λ k. length k.seats.items ≡ length (routine_of c.now).homes) }
    ensures coloring { IfOk result (λ k. (t : Target) → IsLiveness t (routine_of c.now) live.now
        → IsColoring t (routine_of c.now) colours.now (seats_of k)) }
    ensures sparing { IfOk result (λ k. (t : Target) → IsLiveness t (routine_of c.now) live.now
        → IsSparing t (routine_of c.now) colours.now (seats_of k)) }
{
    greedy_is_sparing();
    let graph = conflicts(alloc, c, live)?;
    let seats = all_seats(alloc, &graph, colours)?;
    Ok(Colouring { seats })
}
