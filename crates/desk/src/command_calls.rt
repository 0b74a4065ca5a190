// Commands for C.
ghost use Rattle.std.specs.Prelude.{◌≡◌, length};
ghost use Rattle.command.specs.Text.{check_command};
ghost use Rattle.command.specs.Record.{read_command, command_text, write_seen, left_by};
ghost use Rattle.desk.specs.Numbers.{check_numbers, write_numbers};
ghost use Rattle.desk.specs.Commands.{command_numbers};

use crate::answers::{accepted, length_of, numbers, refused};
use crate::{Answer, CommandAnswer};
use command::Command;
use command::check::{check, walk};
use command::read::{command_of, no_command};
use command_write::write::write;

pub fn esk_command_check(text: &[u8]) -> Answer
    ensures { result ≡ check_numbers (check_command text.now) }
{
    numbers(check(text), 0)
}

pub fn esk_command_read(text: &[u8]) -> CommandAnswer
    ensures { result ≡ command_numbers (read_command text.now) }
{
    let mut places = [0; 11];
    match walk(text, &mut places) {
        Ok(()) => CommandAnswer {
            answer: accepted(0),
            command: command_of(text, places),
        },
        Err(r) => CommandAnswer {
            answer: refused(r),
            command: no_command(),
        },
    }
}

// The record is handed over: of one that is lent it is not known that its arrays are as long as they are declared.
fn write_answer(command: Command, out: &mut [u8]) -> Answer
    ensures { (result ≡ write_numbers (write_seen command (length out.old)) (length (command_text command)))
        × (out.new ≡ left_by (write_seen command (length out.old)) (command_text command) out.old) }
{
    match write(command, out) {
        Ok(length) => accepted(length_of(length)),
        Err(r) => refused(r),
    }
}

pub fn esk_command_write(command: &Command, out: &mut [u8]) -> Answer
    ensures { (result ≡ write_numbers (write_seen command.now (length out.old)) (length (command_text command.now)))
        × (out.new
        ≡ left_by (write_seen command.now (length out.old)) (command_text command.now) out.old) }
{
    write_answer(*command, out)
}
