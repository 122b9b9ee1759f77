//! A set and a get of one key.
//! The contract of the probe is proved only from the contracts of the two calls and from laws.
use crate::index::Index;
use crate::laws::{quiet_pass, replies_at_a_moment};
use segbase::Pass;
use segmodel::laws::{legal_histories, reads_change_by_entries};
use segmodel::{GetAnswer, WriteAnswer};
use segword::{Key, Value};

impl Index {
    ghost use Rattle.segstore.specs.Words.{IsQuiet};
    ghost use Rattle.segindex.specs.Index.{board_of};
    ghost use Rattle.segindex.specs.Probing.{Probes};

    /// Stores the value under the key and, if it was stored, reads the key.
    /// If the set was refused, the key isn't read and the second result is Busy.
    pub fn probe(
        &self,
        pass: &mut Pass,
        key: &Key,
        value: &Value,
        draw: u32,
        now: u32,
    ) -> (WriteAnswer, GetAnswer)
        requires quiet { IsQuiet (board_of self.now) pass.old }
        ensures probes { Probes (board_of self.now) key.now value.now draw now result
            pass.old pass.new }
    {
        let told = self.set(pass, key, value, now);
        let WriteAnswer::Stored = told else {
            return (told, GetAnswer::Busy);
        };
        let read = self.get(pass, key, draw, now);
        replies_at_a_moment();
        quiet_pass();
        legal_histories();
        reads_change_by_entries();
        (told, read)
    }
}
