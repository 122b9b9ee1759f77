//! What a client does in the shard of its hold, or where room is wanted.
use crate::client::SharedClient;
use crate::status::Status;
use segclient::Key;

impl SharedClient {
    ghost use Rattle.seghandles.specs.Copying.{HeldCopied};
    ghost use Rattle.seghandles.specs.Holding.{HoldsAt, ReadsHeld, Releases};
    ghost use Rattle.seghandles.specs.Room.{MakesRoom, MakesRoomInAll};

    /// Makes room, and says whether that came about: in the shard of the last write,
    /// if that had no room, and else in each.
    pub(crate) fn make_room(&mut self, now: u32) -> bool
        ensures { MakesRoom now result self.old self.new }
    {
        let Some(place) = self.wants else {
            return self.make_room_in_all(now);
        };
        let guest = &mut self.guests[place];
        let made = guest.make_room(now);
        if made {
            self.wants = None;
        }
        made
    }

    // Makes room in each shard.
    fn make_room_in_all(&mut self, now: u32) -> bool
        ensures { MakesRoomInAll now result self.old self.new }
    {
        let mut all = true;
        for place in 0..self.guests.len() {
            let made = self.guests[place].make_room(now);
            all = all & made;
        }
        all
    }

    /// Holds the item of a key, if it holds none in any shard.
    pub(crate) fn hold(&mut self, key: &Key, now: u32) -> Status
        ensures { HoldsAt key.now now result self.old self.new }
    {
        if self.holds.is_some() {
            return Status::AlreadyHolding;
        }
        let place = self.place_of(key);
        let guest = &mut self.guests[place];
        let status = guest.hold(key, now);
        if status == Status::Ok {
            self.holds = Some(place);
        }
        status
    }

    /// The value that it holds, if it holds one, goes to the front of a buffer with room for it.
    pub(crate) fn held_into(&mut self, bytes: &mut [u8]) -> Option<Result<usize, usize>>
        ensures { HeldCopied (λ value. ReadsHeld value self.old self.new) result
            bytes.old bytes.new }
    {
        let Some(place) = self.holds else {
            return None;
        };
        let guest = &mut self.guests[place];
        guest.held_into(bytes)
    }

    /// Ends its hold, and says whether there was one.
    pub(crate) fn release(&mut self) -> bool
        ensures { Releases result self.old self.new }
    {
        let Some(place) = self.holds else {
            return false;
        };
        self.holds = None;
        let guest = &mut self.guests[place];
        guest.release()
    }
}
