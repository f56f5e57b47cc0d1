// How many bytes a call reads and writes: specs/Counts.antt has the definition, specs/Laws.antt what holds of it, specs/Rows.antt worked examples.
// It stands above the crates that the laws speak of, and has no code of its own.
#![tactic(auto)]
