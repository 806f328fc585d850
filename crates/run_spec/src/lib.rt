// Definitions and laws of steps on lent memory; its code is in the other crates of this layer.
#![tactic(auto)]
