//! Commands as values, and the calls that they name.
ghost use Rattle.std.specs.Prelude.{ℕ};

use crate::index::Index;
use segbase::Pass;
use segmodel::{Answer, Command, Request};

impl Index {
    ghost use Rattle.segmodel.specs.declared.answer.Command.TheVariants.{Write};
    ghost use Rattle.segindex.specs.Commands.{AnswersCommand};
    ghost use Rattle.segindex.specs.Index.{board_of};
    ghost use Rattle.segstore.specs.Words.{GoesOn, IsQuiet};

    /// Makes the call that a command names.
    /// A hit of a get or a gets raises a frequency if the draw, a random number, counts.
    pub fn serve(&self, pass: &mut Pass, command: &Command, draw: u32) -> Answer
        requires quiet { IsQuiet (board_of self.now) pass.old }
        ensures on { GoesOn (board_of self.now) pass.old pass.new }
        ensures answers { AnswersCommand (board_of self.now) command.now draw
            result pass.old pass.new }
    {
        match command {
            Command::Write(request) => self.serve_request(pass, request),
            Command::Get(key, now) => Answer::Get(self.get(pass, key, draw, *now)),
            Command::Gets(key, now) => Answer::Gets(self.gets(pass, key, draw, *now)),
            Command::Keep(segment, cutoff) => Answer::Keep(self.keep(pass, *segment, *cutoff)),
            Command::Evict(segment) => Answer::Evict(self.evict(pass, *segment)),
            Command::Refill(segment, deadline) => {
                Answer::Refill(self.refill(pass, *segment, *deadline))
            }
        }
    }

    // Makes the call that a request names. No request depends on a draw.
    fn serve_request(&self, pass: &mut Pass, request: &Request) -> Answer
        requires quiet { IsQuiet (board_of self.now) pass.old }
        ensures on { GoesOn (board_of self.now) pass.old pass.new }
        ensures answers { (draw : ℕ) → AnswersCommand (board_of self.now) (Write request.now) draw
            result pass.old pass.new }
    {
        match request {
            Request::Set(key, value, now) => Answer::Write(self.set(pass, key, value, *now)),
            Request::Add(key, value, now) => Answer::Write(self.add(pass, key, value, *now)),
            Request::Replace(key, value, now) => {
                Answer::Write(self.replace(pass, key, value, *now))
            }
            Request::Cas(key, value, expected, now) => {
                Answer::Write(self.cas(pass, key, value, *expected, *now))
            }
            Request::Delete(key, now) => Answer::Delete(self.delete(pass, key, *now)),
        }
    }
}
