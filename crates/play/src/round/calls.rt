// The calls of a round.
ghost use Rattle.std.specs.Prelude.{◌≡◌, ◌+◌, ◌<◌, [], ◌∷◌, ◌++◌, length as count, nat_le, is_ok};
ghost use Rattle.prefix.specs.Kinds.{is_report, is_reply};
ghost use Rattle.prefix.specs.Prefixes.{kinds};
ghost use Rattle.play.specs.Rounds.{next};
ghost use Rattle.play.specs.RoundSteps.{turn_of};
ghost use Rattle.play.specs.Chains.{Link, values, tell_answer, reply_answer, back_answer};
ghost use Rattle.play.specs.declared.call.Call.TheVariants.{Tell, Reply, Back};

use super::Round;
use crate::call::{Answer, Call};
use crate::round_fault::RoundFault;
use book::Book;
use prefix::Kind;
use sheet::Sheet;

impl<'a, F: Sheet, B: Book> Round<'a, F, B> {
    // Adds the next report's value.
    pub fn tell(&mut self, value: bool) -> Result<(), RoundFault>
        ensures link { Link B.Book.prefix B.Book.guards self.old (Tell value) (tell_answer result) self.new }
        ensures made { is_ok result ≡ is_report (kinds (B.Book.prefix self.old.book.now)) (count (values self.old) + 1) }
    {
        self.check_turn(Kind::Report)?;
        self.add(value);
        Ok(())
    }

    // Adds the next reply's value, on exactly where the on-guard is yes at the reports so far,
    // and returns it.
    pub fn reply(&mut self) -> Result<bool, RoundFault>
        ensures link { Link B.Book.prefix B.Book.guards self.old Reply (reply_answer result) self.new }
        ensures made { is_ok result ≡ is_reply (kinds (B.Book.prefix self.old.book.now)) (count (values self.old) + 1) }
    {
        self.check_turn(Kind::Reply)?;
        let on = self.book.on(self.so_far.length + 1, self.so_far.line);
        self.add(on);
        Ok(on)
    }

    // Keeps only the first values, as many as `length`.
    pub fn back(&mut self, length: usize) -> Result<(), RoundFault>
        ensures link { Link B.Book.prefix B.Book.guards self.old (Back length) (back_answer result) self.new }
        ensures made { is_ok result ≡ nat_le length (count (values self.old)) }
    {
        if length > self.so_far.length {
            return Err(RoundFault::BackTooFar);
        }
        self.so_far.length = length;
        Ok(())
    }

    // Makes a call that is given as a value.
    pub fn play(&mut self, call: Call) -> Answer
        ensures { Link B.Book.prefix B.Book.guards self.old call result self.new }
    {
        let answer = match call {
            Call::Tell(value) => self.tell(value).map(|_| Answer::Told),
            Call::Reply => self.reply().map(Answer::Replied),
            Call::Back(length) => self.back(length).map(|_| Answer::WentBack),
        };
        answer.unwrap_or_else(Answer::Refused)
    }

    // Refuses unless the next position is of this kind.
    fn check_turn(&self, kind: Kind) -> Result<(), RoundFault>
        ensures { result ≡ turn_of (next (kinds (B.Book.prefix self.now.book.now)) (values self.now)) kind }
    {
        match self.next_kind() {
            None => Err(RoundFault::Complete),
            Some(next) if next == kind => Ok(()),
            Some(_) => Err(RoundFault::OtherTurn),
        }
    }

    // Adds a value.
    fn add(&mut self, value: bool)
        requires { self.old.so_far.length < 24 }
        ensures sheet { self.new.sheet ≡ self.old.sheet }
        ensures book { self.new.book ≡ self.old.book }
        ensures values { values self.new ≡ values self.old ++ value ∷ [] }
    {
        self.so_far.length += 1;
        self.so_far.line = self.so_far.line.with(self.so_far.length, value);
    }
}
