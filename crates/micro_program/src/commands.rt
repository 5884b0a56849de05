//! The word of a command.
ghost use Rattle.std.specs.Prelude.{◌≡◌, true, unwrap_or};
ghost use Rattle.onfi_cycle.specs.Command.{is_known, opcode};
ghost use Rattle.micro_word.specs.declared.word.Word.TheVariants.{Command as CommandWord};

use micro_word::Word;
use onfi_cycle::Command;

/// The word that puts a command of the profile on the bus.
pub fn command_word(command: Command) -> Word
    requires { is_known command ≡ true }
    ensures { result ≡ CommandWord (unwrap_or (opcode command) 0) }
{
    Word::Command {
        byte: command.opcode().unwrap(),
    }
}
