//! What is promised of the words beside the definition of what they ask for.
ghost use Rattle.cli_args.specs.Examples.{Examples};
ghost use Rattle.cli_args.specs.Stated.{EveryWordIsRead, HelpIsRequested, MisuseIsNamed, FilesAreNamed};

/// What words ask for, by example.
#[tactic(auto, using(crate::proofs::Shown::examples))]
pub fn examples()
    ensures { Examples }
{}

/// Options and operands are all the words, in their order.
#[tactic(auto, using(crate::proofs::Spelling::every_word_is_read))]
pub fn every_word_is_read()
    ensures { EveryWordIsRead }
{}

/// Help is printed only if a word requests it.
#[tactic(auto, using(crate::proofs::Requests::help_is_requested))]
pub fn help_is_requested()
    ensures { HelpIsRequested }
{}

/// A usage error names its word, or its option.
#[tactic(auto, using(crate::proofs::Requests::misuse_is_named))]
pub fn misuse_is_named()
    ensures { MisuseIsNamed }
{}

/// A file that is opened, read or written is one that a word names.
#[tactic(auto, using(crate::proofs::Chosen::files_are_named))]
pub fn files_are_named()
    ensures { FilesAreNamed }
{}
