//! The lines of the README that use a cache in a program.
use anyhow::Result;
use segclient::{DeleteAnswer, GetAnswer, Index, Key, PutAnswer, Shape, Value, clients};
use std::alloc::Global;

/// What the calls return.
pub type Answers = (PutAnswer, GetAnswer, DeleteAnswer);

/// The README shows the lines between the braces, but for the last one.
pub fn readme_lines(alloc: Global, key: &Key, value: &Value, now: u32) -> Result<Option<Answers>> {
    let (index, passes) = Index::new(alloc, Shape::for_keys(100_000, 4)?)?; // for four threads
    let mut clients = clients(alloc, &index, passes)?;
    let Some(mut client) = clients.pop() else {
        return Ok(None);
    };
    client.set_now(now); // its clock stands still until you set it
    let put = client.put(key, value); // Stored; if no row is left, the client evicts a segment of its own
    let found = client.get(key); // Found(value)
    let deleted = client.delete(key); // Deleted
    Ok(Some((put, found, deleted)))
}
