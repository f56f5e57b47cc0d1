// How many bytes a run reads and writes at most: specs/Laws.antt. It stands above the crates that the law speaks of, and has no code of its own.
#![tactic(auto)]
