//! What a flow is.

ghost use Rattle.std.specs.Prelude.{◌≡◌};
ghost use Rattle.flow_blocks.specs.Flows.{next_at, positions_of, previous_at};

use sqlite_items::Items;

/// The positions of the blocks that may come next, at most two.
#[derive(Clone, Copy, Debug)]
pub enum Next {
    Nowhere,
    One(u32),
    Two(u32, u32),
}

/// Where the flow goes from each block, and from where it comes, by positions of blocks. Predecessors stand in their order.
#[derive(Drop)]
pub struct Flow {
    pub next: Items<Next>,
    pub previous: Vec<Vec<u32>>,
}

impl Flow {
    /// The blocks that may come next after the one at a position.
    pub fn next_at(&self, at: usize) -> Next
        ensures { positions_of result ≡ next_at self.now at }
    {
        match self.next.get(at) {
            Some(next) => *next,
            None => Next::Nowhere,
        }
    }

    /// The blocks that lead to the one at a position.
    pub fn previous_at(&self, at: usize) -> &[u32]
        ensures { result.now ≡ previous_at self.now at }
    {
        match self.previous.get(at) {
            Some(blocks) => blocks.as_slice(),
            None => &[],
        }
    }
}
