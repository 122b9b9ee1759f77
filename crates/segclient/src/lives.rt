//! How long what is put can be read: which deadlines its segment can have.
ghost use Rattle.std.specs.Prelude.{◌≡◌};
ghost use Rattle.segclient.specs.Lives.{deadline_by, life_window};

use crate::segments::Window;

// A time to live has so many parts. An item lives for all of them but one at least.
pub(crate) const PARTS: u32 = 8;

// While many segments are free, or full ones expire, deadlines are as fine as this.
pub(crate) const FINE_PARTS: u32 = 64;

// The last multiple of a step that comes in this time, or the largest moment if that comes first.
#[inline(always)]
pub(crate) fn deadline_by(moment: u32, time: u32, step: u32) -> u32
    ensures { result ≡ deadline_by moment time step }
{
    let until = moment.saturating_add(time);
    if until < u32::MAX {
        until - until % step.max(1)
    } else {
        until
    }
}

// The deadlines that do for what is put now for this time.
#[inline(always)]
pub(crate) fn window_for(moment: u32, time: u32) -> Window
    ensures { result ≡ life_window moment time }
{
    let latest = moment.saturating_add(time);
    let earliest = if latest < u32::MAX {
        latest - time / PARTS
    } else {
        latest
    };
    Window { earliest, latest }
}
