//! What follows of the definitions alone. Each function does nothing: its contract is the law.
ghost use Rattle.std.specs.Prelude.{◌≡◌, List};
ghost use Rattle.command_words.specs.OneOption.{file_alone, schema_file};
ghost use Rattle.command_words.specs.Options.{Text};

/// The file of a command line of `run` that gives no budget is that of the one or two words in which `--schema FILE` can
/// stand.
pub fn files_are_of_one_option()
    ensures { (words : List Text) → file_alone words ≡ schema_file words }
{}
