#![tactic(auto)]

//! The promises about the rules' definitions on which code stands: what is promised stands in specs/, how it is proved in proofs/.
