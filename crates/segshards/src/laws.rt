//! What calls on keys of several shards have to do with one another, and what calls leave of the
//! clients of a cache. These functions do nothing: their contracts are the theorems.
ghost use Rattle.segshards.specs.Clients.{EachStays, OneStays};
ghost use Rattle.segshards.specs.Locality.{CallsAreInOneOrder};

/// Any calls of any passes of all shards, in any run, stand in one order: each comes at a point
/// between its first step and its return, each answer is there what a cache of one thread answers
/// with the history of the call's shard, and none comes before one that had returned
/// when it began. In each shard it is the order of the shard's history.
pub fn locality()
    ensures { CallsAreInOneOrder }
{}

/// The clients of all passes of a cache are so still after any calls: each call of a client leaves
/// it the same passes (the call's clause `same`).
pub fn clients_stay()
    ensures one { OneStays }
    ensures each { EachStays }
{}
