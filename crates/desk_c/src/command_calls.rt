// Commands for C.
ghost use Rattle.std.specs.Prelude.{◌≡◌, length};
ghost use Rattle.command.specs.Text.{check_command};
ghost use Rattle.command.specs.Record.{read_command, command_text, write_seen, left_by};
ghost use Rattle.desk.specs.Numbers.{check_numbers, write_numbers};
ghost use Rattle.desk.specs.Commands.{command_numbers};

use command::Command;
use desk::{Answer, CommandAnswer};

#[unsafe(no_mangle)]
pub extern "C" fn esk_command_check(text: &[u8]) -> Answer
    ensures { result ≡ check_numbers (check_command text.now) }
{
    desk::esk_command_check(text)
}

#[unsafe(no_mangle)]
pub extern "C" fn esk_command_read(text: &[u8]) -> CommandAnswer
    ensures { result ≡ command_numbers (read_command text.now) }
{
    desk::esk_command_read(text)
}

#[unsafe(no_mangle)]
pub extern "C" fn esk_command_write(command: &Command, out: &mut [u8]) -> Answer
    ensures { (result ≡ write_numbers (write_seen command.now (length out.old)) (length (command_text command.now)))
        × (out.new
        ≡ left_by (write_seen command.now (length out.old)) (command_text command.now) out.old) }
{
    desk::esk_command_write(command, out)
}
