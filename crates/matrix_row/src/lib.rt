// One row of a block matrix, behind the doors of `matrix_row_view`. Total: a row that the lists don't have, or whose bounds aren't in order, has no block.
#![tactic(auto)]

pub mod inner;
