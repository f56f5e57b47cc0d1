// That a disassembly reads an instruction as a step does: specs/SameAsStep.antt has the laws, proofs/SameAsStep.antt their proof.
// It stands above both, and has no code of its own.
#![tactic(auto)]
