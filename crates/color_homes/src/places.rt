//! Where the temporaries of a code are.

use temp_code::Code;
use temp_shapes::ShapeRows;

/// Where the temporaries of a code are: in the registers of their seats, or in their homes. From there they come into scratch registers, by
/// the rows of the machine's shapes.
#[derive(Drop)]
pub struct Places<'a> {
    pub rows: &'a ShapeRows,
    pub code: &'a Code,
    /// The register of each temporary, or None where it is in its home.
    pub seats: &'a [Option<u8>],
    pub scratch: &'a [u8],
}
