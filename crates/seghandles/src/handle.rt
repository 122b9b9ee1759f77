//! What C has of a value here: a pointer to a box of it, or none.
ghost use Rattle.std.specs.Prelude.{◌≡◌, Option, None, Some, is_none, MatchOption};
ghost use Rattle.std.specs.Coded.{coded_option};
ghost use Rattle.seghandles.specs.Token.{token};
ghost use Rattle.seghandles.specs.Owned.{owns_if};
ghost use Rattle.seghandles.specs.declared.kept.Kept.{Kept};
ghost use Rattle.seghandles.specs.contracts.kept.Kept.{the_row as kept_row};

use crate::kept::Kept;
use crate::loose::Loose;
use std::alloc::Global;
use std::marker::Model;
use std::mem;

/// A pointer that C has. One of zeros has nothing.
#[repr(C)]
pub struct Handle {
    at: *mut u8,
    full: bool,
    pub ghost value: { Option Kept } by { coded_option kept_row.coded },
}

impl Model for Handle {
    ghost also_owns = { λ h. owns_if token kept_row h.at h.full h.value };
}

impl Handle {
    ghost use Rattle.std.specs.Borrow.{sem};
    ghost use Rattle.seghandles.specs.Lending.{LendsKept};

    // No value.
    fn none() -> Handle
        ensures { result.value ≡ None }
    {
        Handle {
            at: std::ptr::null_mut(),
            full: false,
        }
    }

    // The value in a box.
    fn of(loose: Loose<Kept, Global>) -> Handle
        ensures { result.value ≡ Some loose.value }
    {
        let Loose { at, alloc: _ } = loose;
        Handle {
            at: at as *mut u8,
            full: true,
        }
    }

    // The value, if it has one.
    fn loose(self, alloc: Global) -> Option<Loose<Kept, Global>>
        ensures { MatchOption result (self.value ≡ None) (λ loose. self.value ≡ Some loose.value) }
    {
        let Handle { at, full } = self;
        if full {
            Some(Loose {
                at: at as *mut Kept,
                alloc,
            })
        } else {
            None
        }
    }

    /// The value, if it has one, where it stands.
    #[inline(always)]
    pub(crate) fn kept(&mut self) -> Option<&mut Kept>
        ensures* lends { sem 𝓛 (LendsKept self.entry result) }
        ensures kept { MatchOption result (self.old.value ≡ None)
            (λ kept. self.old.value ≡ Some kept.now) }
    {
        if !self.full {
            return None;
        }
        unsafe { Some(&mut *(self.at as *mut Kept)) }
    }

    /// Takes the value out, and leaves none.
    pub(crate) fn take(&mut self, alloc: Global) -> Option<Box<Kept, Global>>
        ensures taken { MatchOption result (self.old.value ≡ None)
            (λ boxed. self.old.value ≡ Some boxed.value) }
        ensures none { self.new.value ≡ None }
    {
        match mem::replace(self, Handle::none()).loose(alloc) {
            Some(loose) => Some(loose.into_box()),
            None => None,
        }
    }

    /// Puts the value in. What was there is dropped.
    pub(crate) fn fill(&mut self, alloc: Global, boxed: Box<Kept, Global>)
        ensures { self.new.value ≡ Some boxed.value }
    {
        let before = mem::replace(self, Handle::of(Loose::of(boxed)));
        if let Some(loose) = before.loose(alloc) {
            drop(loose.into_box());
        }
    }

    /// Whether it has no value.
    pub(crate) fn is_empty(&mut self, alloc: Global) -> bool
        ensures empty { result ≡ is_none self.old.value }
        ensures same { self.new.value ≡ self.old.value }
    {
        let Some(boxed) = self.take(alloc) else {
            return true;
        };
        self.fill(alloc, boxed);
        false
    }
}
