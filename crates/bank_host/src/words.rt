// The words behind the program's name, and what they ask for.

ghost use Rattle.std.specs.Prelude.{◌≡◌, map, string_bytes};
ghost use Rattle.bank_host.specs.Running.{command_named, command_of as command_asked};

/// What the words ask for.
#[derive(Clone, Copy)]
pub enum Command {
    /// To replay a schedule.
    Replay,
    /// To simulate the token protocol on a schedule.
    Simulate,
}

/// The command that a word names.
fn command_named(word: &str) -> Option<Command>
    ensures { result ≡ command_named word.now }
{
    if word == "replay" {
        Some(Command::Replay)
    } else if word == "simulate" {
        Some(Command::Simulate)
    } else {
        None
    }
}

/// The command that the words ask for, or none where they aren't accepted.
pub fn command_of(words: &[String]) -> Option<Command>
    ensures { result ≡ command_asked (map string_bytes words.now) }
{
    match words {
        [command, _] => command_named(command.as_str()),
        _ => None,
    }
}
