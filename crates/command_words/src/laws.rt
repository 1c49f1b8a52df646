//! A law of the definitions.
ghost use Rattle.std.specs.Prelude.{◌≡◌, true};
ghost use Rattle.clap.specs.Words.{is_simple_and_free};
ghost use Rattle.command_words.specs.Dump.{dump_command};
ghost use Rattle.command_words.specs.Load.{load_command};

/// Both commands are simple ones, whose options have no rules on one another: `clap` says of such, for all
/// words, exactly what it finds in them and when it refuses them.
pub fn both_commands_are_simple()
    ensures dump { is_simple_and_free dump_command ≡ true }
    ensures load { is_simple_and_free load_command ≡ true }
{}
