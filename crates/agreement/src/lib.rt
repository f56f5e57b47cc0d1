// That the two engines agree: specs/Agreement.antt has the statement. It stands above both engines, and has no code of its own.
#![tactic(auto)]
