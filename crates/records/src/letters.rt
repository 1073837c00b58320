// The letters of a record, and their operands.
ghost use Rattle.std.specs.Prelude.{◌≡◌, None, MatchOption};
ghost use Rattle.days.specs.Records.{decoded};
ghost use Rattle.records.specs.Read.{Begins};

use days::command::{Command, Mark};

// The command that the bytes begin with, and the rest of them.
pub(crate) fn command(bytes: &[u8]) -> Option<(Command, &[u8])>
    ensures { MatchOption result (decoded bytes.now ≡ None) (λ read. Begins bytes.now read.0 read.1.now) }
{
    match bytes {
        [b'R', task, rest @ ..] => Some((Command::Release(*task), rest)),
        [b'H', task, rest @ ..] => Some((Command::Serve(Mark::Hold, *task), rest)),
        [b'O', task, rest @ ..] => Some((Command::Serve(Mark::Open, *task), rest)),
        [b'D', task, rest @ ..] => Some((Command::Serve(Mark::Done, *task), rest)),
        [b'I', high, low, rest @ ..] => Some((
            Command::Idle(u16::from_be_bytes([*high, *low])),
            rest,
        )),
        _ => None,
    }
}
