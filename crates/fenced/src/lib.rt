// What the fence promises of whole calls (document 02, [14]): specs/Laws.antt has the laws, proofs/Laws.antt their proof.
// It stands above the calls that the laws speak of, and has no code of its own.
#![tactic(auto)]
