// Definitions and laws of cells in slices; its code is in `cell_row`, `cell_axis`, `cell_sum`, `cell_copy` and `run_merge`.
#![tactic(auto)]
