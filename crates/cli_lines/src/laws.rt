//! What follows of several scripts, each as the contract of a function.
ghost use Rattle.cli_lines.specs.Stated.{TextsJoined, EntriesJoined, PagesJoined, RefusalEnds, UnreadEnds};

/// `why` writes the texts of scripts that are accepted one after another.
#[tactic(auto, using(crate::proofs::Stating::texts_joined))]
pub fn texts_joined()
    ensures { TextsJoined }
{}

/// As JSON it writes one value with their entries.
#[tactic(auto, using(crate::proofs::Stating::entries_joined))]
pub fn entries_joined()
    ensures { EntriesJoined }
{}

/// `list` writes their listings one after another.
#[tactic(auto, using(crate::proofs::Stating::pages_joined))]
pub fn pages_joined()
    ensures { PagesJoined }
{}

/// The first script that is refused ends `why`.
#[tactic(auto, using(crate::proofs::Stating::refusal_ends))]
pub fn refusal_ends()
    ensures { RefusalEnds }
{}

/// So does the first that is not read.
#[tactic(auto, using(crate::proofs::Stating::unread_ends))]
pub fn unread_ends()
    ensures { UnreadEnds }
{}
