//! Gets of several keys at a time, whose waits for memory overlap.
ghost use Rattle.std.specs.Prelude.{◌≡◌, ◌<◌, length};
ghost use Rattle.segclient.specs.Made.{Gets, GetsVersion};
ghost use Rattle.segclient.specs.Many.{InTurn, LooksAheadBy, LooksBefore};

use crate::client::Client;
use crate::member::Member;
use segindex::{Index, Seeker};
use segmodel::{GetAnswer, GetsAnswer};
use segword::Key;

// So many keys are looked ahead for at a time.
const PIECE: usize = 16;

// For fewer keys a look ahead costs more than it spares.
const LEAST: usize = 8;

impl Member {
    ghost use Rattle.segindex.specs.Words.{board_of};
    ghost use Rattle.segclient.specs.Member.{IsMember};

    /// As `Client::look_ahead`.
    pub fn look_ahead(&mut self, index: &Index, keys: &[Key])
        requires member { IsMember index.now self.old }
        ensures member { IsMember index.now self.new }
        ensures looks { LooksAheadBy (length keys.now) (board_of index.now) self.old self.new }
    {
        index.look_ahead(&mut self.pass, keys);
    }

    /// As `Client::seek`.
    #[inline(always)]
    pub fn seek(&mut self, index: &Index, key: &Key) -> Seeker
        requires member { IsMember index.now self.old }
        ensures member { IsMember index.now self.new }
        ensures looks { LooksAheadBy 1 (board_of index.now) self.old self.new }
    {
        index.seek(&mut self.pass, key)
    }

    // Looks ahead for a piece of the keys, if one begins at this place.
    fn look_ahead_from(&mut self, index: &Index, keys: &[Key], place: usize)
        requires member { IsMember index.now self.old }
        requires place { place < length keys.now }
        ensures member { IsMember index.now self.new }
        ensures looks { LooksBefore place (board_of index.now) self.old self.new }
    {
        let end = keys.len().min(place + PIECE);
        if place % PIECE == 0 && end - place >= LEAST {
            self.look_ahead(index, &keys[place..end]);
        }
    }

    /// As `Client::get_many`.
    pub fn get_many(&mut self, index: &Index, keys: &[Key], answers: &mut [GetAnswer])
        requires member { IsMember index.now self.old }
        requires answers { length answers.old ≡ length keys.now }
        ensures member { IsMember index.now self.new }
        ensures gets { InTurn Gets keys.now answers.new (board_of index.now) self.old self.new }
    {
        for place in 0..keys.len() {
            self.look_ahead_from(index, keys, place);
            answers[place] = self.get(index, &keys[place]);
        }
    }

    /// As `Client::gets_many`.
    pub fn gets_many(&mut self, index: &Index, keys: &[Key], answers: &mut [GetsAnswer])
        requires member { IsMember index.now self.old }
        requires answers { length answers.old ≡ length keys.now }
        ensures member { IsMember index.now self.new }
        ensures gets { InTurn GetsVersion keys.now answers.new (board_of index.now)
            self.old self.new }
    {
        for place in 0..keys.len() {
            self.look_ahead_from(index, keys, place);
            answers[place] = self.gets(index, &keys[place]);
        }
    }
}

impl<'i> Client<'i> {
    ghost use Rattle.segclient.specs.Client.{MakesCall};

    /// Loads what calls on these keys will read, so that their waits for memory overlap.
    /// It takes one step for each key. No answer depends on what is found.
    pub fn look_ahead(&mut self, keys: &[Key])
        ensures looks { MakesCall (LooksAheadBy (length keys.now)) self.old self.new }
    {
        self.member.look_ahead(self.index, keys);
    }

    /// A look ahead for one key, for those who look into several indexes at a time. It takes the one
    /// step. `Index::follow` goes on from there.
    #[inline(always)]
    pub fn seek(&mut self, key: &Key) -> Seeker
        ensures looks { MakesCall (LooksAheadBy 1) self.old self.new }
    {
        self.member.seek(self.index, key)
    }

    /// The value under each key: one get after another, each with the answer at its key's place.
    pub fn get_many(&mut self, keys: &[Key], answers: &mut [GetAnswer])
        requires answers { length answers.old ≡ length keys.now }
        ensures gets { MakesCall (InTurn Gets keys.now answers.new) self.old self.new }
    {
        self.member.get_many(self.index, keys, answers);
    }

    /// As `get_many`, with the version of each key's bucket, for later compare-and-swaps.
    pub fn gets_many(&mut self, keys: &[Key], answers: &mut [GetsAnswer])
        requires answers { length answers.old ≡ length keys.now }
        ensures gets { MakesCall (InTurn GetsVersion keys.now answers.new) self.old self.new }
    {
        self.member.gets_many(self.index, keys, answers);
    }
}
