//! Whether the plain cache has rows left in the segment that it fills.
ghost use Rattle.std.specs.Prelude.{◌≡◌, ◌<◌, length, true, false, Some, IfSome, IfNone};
ghost use Rattle.segword.specs.Words.{span_of};

use crate::parts::used_rows;
use crate::plain::Plain;
use segword::{Key, Value, span_of};

impl Plain {
    ghost use Rattle.segmodel.specs.Plain.{filling_in, HasLeft, lacks_room, span_at};

    // The segment that is filled, if it has rows left for this key and this value.
    pub(crate) fn room_for(&self, key: &Key, value: &Value) -> Option<u32>
        ensures current { IfSome result (λ segment. self.now.current ≡ Some segment) }
        ensures left { IfSome result (λ segment.
            HasLeft self.now segment (span_of key.now value.now)) }
        ensures some { IfSome result (λ segment.
            lacks_room self.now (span_of key.now value.now) ≡ false) }
        ensures none { IfNone result (lacks_room self.now (span_of key.now value.now) ≡ true) }
    {
        let segment = self.current?;
        let used = used_rows(&self.segments, segment as usize);
        let rows = used + span_of(key, value) as usize;
        (rows <= self.shape.rows as usize).then_some(segment)
    }

    // The segment that is filled, if it has rows left for the item under a row's key.
    pub(crate) fn room_at(&self, segment: u32, row: usize) -> Option<u32>
        requires own { segment < self.now.shape.segments_each }
        requires used { row < length (filling_in self.now segment).keys }
        ensures current { IfSome result (λ to. self.now.current ≡ Some to) }
        ensures left { IfSome result (λ to. HasLeft self.now to (span_at self.now segment row)) }
        ensures some { IfSome result (λ to.
            lacks_room self.now (span_at self.now segment row) ≡ false) }
        ensures none { IfNone result (lacks_room self.now (span_at self.now segment row) ≡ true) }
    {
        let to = self.current?;
        let used = used_rows(&self.segments, to as usize);
        let rows = used + self.span_at(segment, row) as usize;
        (rows <= self.shape.rows as usize).then_some(to)
    }

    // How many rows the item under a row's key takes.
    fn span_at(&self, segment: u32, row: usize) -> u32
        requires own { segment < self.now.shape.segments_each }
        requires used { row < length (filling_in self.now segment).keys }
        ensures { result ≡ span_at self.now segment row }
    {
        let key = &self.segments[segment as usize].keys[row];
        match self.items.get(key) {
            Some(item) => span_of(key, &item.value),
            None => 1,
        }
    }
}
