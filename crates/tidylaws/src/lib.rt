#![tactic(auto)]

//! Laws of the tidy copy, for the promises of it and for the code that writes it. They stand on the laws of `text`, which `promises` does not
//! know; what is promised stands in promises/specs/Tidy.antt.
