// The checked examples of document 01 that are proved: specs/Rows.antt has the table and proofs/Rows.antt its one statement. Beside them,
// in specs/Facts.antt, single cases that a likely slip would answer otherwise.
// It stands above the crates that the rows and facts speak of, and has no code of its own.
#![tactic(auto)]
