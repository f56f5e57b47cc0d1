// Demand 3: sequences of recorded calls, undos, drops and the host's writes, and what undo, drop and the newest record are wherever one has
// led. specs/Sequence.antt has the statement of the definitions, specs/History.antt that of the code. There is no code here.
#![tactic(auto)]
