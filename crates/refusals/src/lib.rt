// When a step is refused, number by number: specs/Steps.antt has a law for each, proofs/Steps.antt their proof.
// It stands above the crates that the laws speak of, and has no code of its own.
#![tactic(auto)]
