//! The calls that store a value or take out a key.
ghost use Rattle.std.specs.Prelude.{◌≡◌};
ghost use Rattle.segword.specs.Words.{IsWithin};
ghost use Rattle.segmodel.specs.declared.request.Request.TheVariants.{Set, Add, Replace, Cas};

use crate::index::Index;
use segbase::Pass;
use segmodel::{DeleteAnswer, WriteAnswer};
use segstore::RowRef;
use segword::{Key, Value, ValueBytes};
use segwrite::Condition;

impl Index {
    ghost use Rattle.segstore.specs.Words.{IsQuiet};
    ghost use Rattle.segwrite.specs.Words.{Deletes, IsSetAnswer, request_of, Writes};
    ghost use Rattle.segwrite.specs.declared.condition.Condition.TheVariants.{Always};
    ghost use Rattle.segindex.specs.Index.{board_of};

    /// Stores the value under the key.
    pub fn set(&self, pass: &mut Pass, key: &Key, value: &Value, now: u32) -> WriteAnswer
        requires quiet { IsQuiet (board_of self.now) pass.old }
        ensures writes { Writes (board_of self.now) (Set key.now value.now now) result
            pass.old pass.new }
        ensures set { IsSetAnswer result }
    {
        self.write(pass, key, &ValueBytes::of(value), Condition::Always, now)
            .0
    }

    /// Stores the value if the key is absent. Otherwise it returns NotStored.
    pub fn add(&self, pass: &mut Pass, key: &Key, value: &Value, now: u32) -> WriteAnswer
        requires quiet { IsQuiet (board_of self.now) pass.old }
        ensures writes { Writes (board_of self.now) (Add key.now value.now now) result
            pass.old pass.new }
    {
        self.write(pass, key, &ValueBytes::of(value), Condition::IfAbsent, now)
            .0
    }

    /// Stores the value if the key is present. Otherwise it returns NotStored.
    pub fn replace(&self, pass: &mut Pass, key: &Key, value: &Value, now: u32) -> WriteAnswer
        requires quiet { IsQuiet (board_of self.now) pass.old }
        ensures writes { Writes (board_of self.now) (Replace key.now value.now now) result
            pass.old pass.new }
    {
        self.write(pass, key, &ValueBytes::of(value), Condition::IfPresent, now)
            .0
    }

    /// Stores the value if the key is present and its bucket has the expected version.
    /// It returns NotFound if the key is absent, and Exists if only the version differs.
    pub fn cas(
        &self,
        pass: &mut Pass,
        key: &Key,
        value: &Value,
        expected: u32,
        now: u32,
    ) -> WriteAnswer
        requires quiet { IsQuiet (board_of self.now) pass.old }
        ensures writes { Writes (board_of self.now) (Cas key.now value.now expected now) result
            pass.old pass.new }
    {
        self.write(
            pass,
            key,
            &ValueBytes::of(value),
            Condition::IfVersion(expected),
            now,
        )
        .0
    }

    /// Stores the value under the key, if that is to be, as `set`, `add`, `replace` and `cas` do. The
    /// bytes of the value go from where they stand into the words of its row. It tells which row the
    /// key had before, of which no contract says anything.
    #[inline(always)]
    pub fn write(
        &self,
        pass: &mut Pass,
        key: &Key,
        value: &ValueBytes<'_>,
        condition: Condition,
        now: u32,
    ) -> (WriteAnswer, Option<RowRef>)
        requires quiet { IsQuiet (board_of self.now) pass.old }
        ensures writes { Writes (board_of self.now) (request_of condition key.now value.now now)
            result.0 pass.old pass.new }
        ensures set { condition ≡ Always → IsSetAnswer result.0 }
    {
        self.takes(key, value);
        segwrite::write(&self.board, pass, key, value, condition, now)
    }

    /// Takes the key out. A delete needs no row.
    pub fn delete(&self, pass: &mut Pass, key: &Key, now: u32) -> DeleteAnswer
        requires quiet { IsQuiet (board_of self.now) pass.old }
        ensures deletes { Deletes (board_of self.now) key.now now result pass.old pass.new }
    {
        self.delete_and_tell(pass, key, now).0
    }

    /// Takes the key out as `delete` does, and tells which row the key had before.
    /// No contract says what the second part is.
    #[inline(always)]
    pub fn delete_and_tell(
        &self,
        pass: &mut Pass,
        key: &Key,
        now: u32,
    ) -> (DeleteAnswer, Option<RowRef>)
        requires quiet { IsQuiet (board_of self.now) pass.old }
        ensures deletes { Deletes (board_of self.now) key.now now result.0 pass.old pass.new }
    {
        segwrite::delete(&self.board, pass, key, now)
    }

    // The limits of the index are those of the longest keys and values.
    #[inline(always)]
    fn takes(&self, key: &Key, value: &ValueBytes<'_>)
        ensures { IsWithin (board_of self.now).limits key.now value.now }
    {
        let _lengths = key.as_bytes().len() + value.len();
    }
}
