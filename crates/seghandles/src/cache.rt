//! The cache that C has: all shards, each with places for its passes.
ghost use Rattle.std.specs.Prelude.{◌≡◌, ◌≤◌, vec_len};

use crate::client::SharedClient;
use crate::home::Home;

/// The shards of a cache, in their order.
#[derive(Drop)]
pub struct Cache {
    homes: Vec<Home>,
    ghost some: { 1 ≤ vec_len homes },
}

impl Cache {
    ghost use Rattle.std.specs.Prelude.{◌↔◌, true};
    ghost use Rattle.seghandles.specs.Returning.{HasPlaceFor, TakesBack};
    ghost use Rattle.seghandles.specs.Ending.{AreAllHome};
    ghost use Rattle.seghandles.specs.Sharing.{ShareShards};

    /// A cache of these shards.
    pub(crate) fn new(homes: Vec<Home>) -> Cache
        requires some { 1 ≤ vec_len homes }
        ensures homes { result.homes ≡ homes }
    {
        Cache { homes }
    }

    /// Its shards.
    pub(crate) fn into_homes(self) -> Vec<Home>
        ensures homes { result ≡ self.homes }
    {
        let Cache { homes } = self;
        homes
    }

    /// Whether the passes of each client are back.
    pub(crate) fn has_all(&self) -> bool
        ensures { result ≡ true ↔ AreAllHome self.now }
    {
        self.homes.iter().all(|home| home.has_all())
    }

    /// Whether each shard has a free place for the client.
    pub(crate) fn has_place_for(&self, client: &SharedClient) -> bool
        ensures { result ≡ true ↔ HasPlaceFor self.now client.now }
    {
        if self.homes.len() != client.guests.len() {
            return false;
        }
        for place in 0..self.homes.len() {
            if !self.homes[place].has_place_for(&client.guests[place]) {
                return false;
            }
        }
        true
    }

    /// Ends the hold of a client of these shards, and puts its passes into their places.
    pub(crate) fn take_back(&mut self, client: SharedClient)
        requires same { ShareShards self.old client }
        requires places { HasPlaceFor self.old client }
        ensures { TakesBack client self.old self.new }
    {
        let SharedClient { guests, .. } = client;
        let mut place = 0;
        for guest in guests {
            self.homes[place].take_back(guest);
            place += 1;
        }
    }
}
