//! Laws of puts, reads and deletes, beside the contracts of the calls.
//! These functions do nothing: their contracts are the theorems.
ghost use Rattle.segclient.specs.CommandLaws.{DeleteIsACommand, GetIsACommand, GetsIsACommand};
ghost use Rattle.segclient.specs.PutLaws.{PutCounts, PutGoesOn, PutIsRefused, PutLasts};

/// What a put comes to, but for how many calls of the index it makes, and when none makes room.
/// The client's pass is quiet again, and what it has seen only grew.
/// Hold, lock and settings are as they were, and no number was drawn.
/// The client counts the answer, and the entries that the put adds beside its request's.
/// A put that is Stored stores into a segment whose deadline comes in the put's time,
/// and not before seven eighths of it.
/// It is NoRoom only if each segment of its pass couldn't be had, or if its item takes more rows
/// than a segment has. It is BucketFull only if its key's bucket was full and later was full
/// again, and Busy only if that bucket was in the way.
pub fn what_a_put_comes_to()
    ensures on { PutGoesOn }
    ensures counts { PutCounts }
    ensures lasts { PutLasts }
    ensures refused { PutIsRefused }
{}

/// A get, a gets and a delete are each one command of the index, at the moment that the client's
/// clock shows. The client counts the answer. For a read it draws one number.
/// Its settings are as they were, and its segments too, but that queues are told of a delete.
/// What such a command is answered say the laws of commands (`commands_are_answered`).
pub fn reads_and_deletes_are_commands()
    ensures get { GetIsACommand }
    ensures gets { GetsIsACommand }
    ensures delete { DeleteIsACommand }
{}
