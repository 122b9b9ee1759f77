//! Commands and replies as scripts spell them:
//! a table of them is served by any cache of one thread.
use segmodel::{Answer, Command, Outcome, Turn};
use segscript::{read_line, reply_of};

/// The command of a line such as "p0 set a 1 @0".
pub fn command_of(text: &str) -> Option<Command> {
    match read_line(text.as_bytes(), 1) {
        Some((_, Turn::Serve(command))) => Some(command),
        _ => None,
    }
}

/// Whether the reply to a command that is answered so is the wanted one, such as "STORED".
pub fn is_reply(wanted: &str, answer: Answer) -> bool {
    let reply = reply_of(&Outcome::Answered(answer));
    match reply.as_slice().split_last() {
        Some((end, text)) => *end == b'\n' && text == wanted.as_bytes(),
        None => false,
    }
}
