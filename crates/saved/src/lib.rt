// The set that a hand-over of the MultiKron II saves: its bytes, and what is read back from them.
#![tactic(auto)]

pub mod saved;
