//! What runs the commands of a script.

ghost use Rattle.std.specs.Prelude.{Result};
ghost use Rattle.script_lines.specs.declared.answer.Answer.{Answer};
ghost use Rattle.script_lines.specs.declared.command.Command.{Command};
ghost use Rattle.scripts.specs.declared.session.BadCommand.{BadCommand};

use crate::session::BadCommand;
use script_lines::{Answer, Command};

/// What runs the commands of a script, one after the other. A `Session` is one.
pub trait CommandRunner {
    /// What a command with its answer makes of it.
    ghost runs: { Command → Self → Result Answer BadCommand → Self → Type 0 };

    /// Does what a command asks for.
    ///
    /// # Errors
    /// `BadCommand` if there isn't what the command needs. A refusal of the pool is an answer.
    fn run(&mut self, command: Command) -> Result<Answer, BadCommand>
        ensures { runs command self.old result self.new };
}
