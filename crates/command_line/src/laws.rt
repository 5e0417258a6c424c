//! The law of the words. The function here does nothing; its contract is the law.

ghost use Rattle.std.specs.Prelude.{◌≡◌, List, ℕ};
ghost use Rattle.command_line.specs.CommandLine.{mode_of};
ghost use Rattle.command_line.specs.Parsing.{mode_of_words};

/// A parse of the words gives the mode that the words ask for, or none if they ask for none, whatever bytes they are.
pub fn a_parse_gives_the_mode()
    ensures { (words : List (List ℕ)) → mode_of_words words ≡ mode_of words }
{}
