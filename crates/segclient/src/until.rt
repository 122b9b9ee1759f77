//! When what a client stores expires.
use crate::client::Client;
use crate::member::Member;

impl Member {
    ghost use Rattle.std.specs.Prelude.{◌≡◌};
    ghost use Rattle.segclient.specs.PutParts.{current_deadline};

    /// As `Client::stores_until`.
    pub fn stores_until(&self) -> Option<u32>
        ensures { result ≡ current_deadline self.now.pass }
    {
        self.pass.deadline(self.pass.current()?)
    }
}

impl Client<'_> {
    ghost use Rattle.std.specs.Prelude.{◌≡◌};
    ghost use Rattle.segclient.specs.PutParts.{current_deadline};

    /// The deadline of the segment that it stores into, if it has one.
    /// Right after a put that was Stored, it is that of the item.
    pub fn stores_until(&self) -> Option<u32>
        ensures { result ≡ current_deadline self.now.member.pass }
    {
        self.member.stores_until()
    }
}
