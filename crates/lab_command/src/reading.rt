// A line that was taken, to its command.
ghost use Rattle.std.specs.Prelude.{◌≡◌};
ghost use Rattle.lab_command.specs.Reading.{command_in};

use crate::commands;
use lab_form::Command;

// A length beside the line, since the reading has it as a number of its own: one past the line is no line's.
#[tactic(auto, unfolding(crate::specs::Reading::command_in))]
pub fn to_command(n: usize, line: &[u8]) -> Command
    ensures { result ≡ command_in n line.now }
{
    if line.len() < n {
        return Command::Unreadable;
    }
    commands::read(&line[..n])
}
