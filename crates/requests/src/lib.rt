#![tactic(auto)]

//! What else is asked of a script, as definitions over `rules`, a file each: what a reader must believe of them stands in specs/. Laws of them for the
//! code's proofs stand in proofs/.
