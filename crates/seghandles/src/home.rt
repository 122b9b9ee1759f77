//! The index of one shard, with a place for each of its passes.
ghost use Rattle.std.specs.Prelude.{◌≡◌, ◌↔◌, ◌≤◌, ◌+◌, true, All, IsSome, Some, None};
ghost use Rattle.std.specs.Prelude.{replicate, map, vec_len, IfOk, []};
ghost use Rattle.std.specs.Vec.{vec_capacity};
ghost use Rattle.seghandles.specs.Places.{AreItsPlaces, AreItsPlaces-prop};

use crate::guest::Guest;
use crate::status::Status;
use segclient::{Index, Key, Pass, Value};
use std::alloc::{AllocError, Global};
use std::sync::Arc;

/// An index that is shared with clients, and the passes of those that came back.
#[derive(Drop)]
pub struct Home {
    index: Arc<Index, Global>,
    places: Vec<Option<Pass>>,
    ghost places_are: { AreItsPlaces index.value
        places.items } by { AreItsPlaces-prop index.value places.items },
}

/// How the end of a shard went.
pub(crate) enum End {
    /// Its content.
    Content { pairs: Vec<(Key, Value)> },
    /// It didn't come about, and the shard is as it was.
    Refused { home: Home, why: Status },
    /// The memory for the list was refused, and the shard is gone.
    Gone,
}

impl Home {
    ghost use Rattle.seghandles.specs.Home.{EndsAs, HasPlaceFor, IsNewHome, TakesBack};

    /// One with no pass in its places.
    pub(crate) fn new(alloc: Global, index: Arc<Index, Global>) -> Result<Home, AllocError>
        ensures { IfOk result (IsNewHome index.value) }
    {
        let places = no_passes(alloc, index.shape().passes)?;
        Ok(Home { index, places })
    }

    /// Whether the pass of each guest is back.
    pub(crate) fn has_all(&self) -> bool
        ensures { result ≡ true ↔ All IsSome self.now.places.items }
    {
        self.places.iter().all(|place| place.is_some())
    }

    /// Whether the place of the guest is free.
    pub(crate) fn has_place_for(&self, guest: &Guest) -> bool
        ensures { result ≡ true ↔ HasPlaceFor self.now guest.now }
    {
        matches!(self.places.get(guest.number() as usize), Some(None))
    }

    /// Ends the hold of a guest of this index, and puts its pass into its place.
    pub(crate) fn take_back(&mut self, guest: Guest)
        requires same { guest.share.index.value ≡ self.old.index.value }
        requires place { HasPlaceFor self.old guest }
        ensures { TakesBack guest self.old self.new }
    {
        let place = guest.number() as usize;
        self.places[place] = Some(guest.into_pass());
    }

    /// Closes the index with all passes, if all are back, and lists its content.
    /// It is Busy if somebody shares the index still, which no contract rules out.
    pub(crate) fn end(self, alloc: Global) -> End
        ensures { EndsAs self result }
    {
        if !self.has_all() {
            return End::Refused {
                home: self,
                why: Status::ClientOut,
            };
        }
        let Ok(passes) = Vec::with_capacity(alloc, self.places.len()) else {
            return End::Refused {
                home: self,
                why: Status::OutOfMemory,
            };
        };
        let Home { index, places } = self;
        match Arc::try_unwrap(index) {
            Ok(index) => match index.close_all(alloc, passes_of(places, passes)) {
                Ok(pairs) => End::Content { pairs },
                Err(_) => End::Gone,
            },
            Err(index) => End::Refused {
                home: Home { index, places },
                why: Status::Busy,
            },
        }
    }
}

// So many places with no pass.
fn no_passes(alloc: Global, count: u32) -> Result<Vec<Option<Pass>>, AllocError>
    ensures { IfOk result (λ places. places.items ≡ replicate count None) }
{
    let mut places = Vec::with_capacity(alloc, count as usize)?;
    for _ in 0..count {
        places.push_reserved(None);
    }
    Ok(places)
}

// The passes in the places, in their order, behind those of the list.
fn passes_of(places: Vec<Option<Pass>>, passes: Vec<Pass>) -> Vec<Pass>
    requires all { All IsSome places.items }
    requires room { vec_len passes + vec_len places ≤ vec_capacity passes }
    requires none { passes.items ≡ [] }
    ensures { map Some result.items ≡ places.items }
{
    let mut passes = passes;
    for place in places {
        if let Some(pass) = place {
            passes.push_reserved(pass);
        }
    }
    passes
}
