// Lists of cells.
use kasa_num::Listed;

/// Cells of a mixture, by their numbers from 0: those on which the nodes of a pattern lie, in the order of the nodes.
pub type Cells = Listed<u32>;
