//! A session store: who signed in is known by a token until the session ends.
use crate::only_client::only_client;
use crate::same::{check_that, same};
use segclient::{Client, GetAnswer, Index, Key, PutAnswer, Shape, Value};

const SHAPE: Shape = Shape {
    buckets: 64,
    overflow: 8,
    passes: 1,
    segments_each: 4,
    rows: 32,
    first_version: 0,
};

// How long a session lasts at most, in seconds.
const LASTS: u32 = 1_800;

/// The sessions of a service, which one thread looks after.
#[derive(Drop)]
struct Sessions<'i> {
    client: Client<'i>,
}

impl<'i> Sessions<'i> {
    /// No sessions yet.
    fn new(mut client: Client<'i>) -> Sessions<'i> {
        client.set_time_to_live(LASTS);
        Sessions { client }
    }

    /// Sets what the clock shows, in seconds.
    fn tick(&mut self, now: u32) {
        self.client.set_now(now);
    }

    /// Begins a session of this user, and returns whether the session is stored.
    fn sign_in(&mut self, token: &str, user: &str) -> bool {
        let (Some(token), Some(user)) = (Key::new(token.as_bytes()), Value::new(user.as_bytes()))
        else {
            return false;
        };
        self.client.put(&token, &user) == PutAnswer::Stored
    }

    /// The user of a session, if the session hasn't ended.
    fn user_of(&mut self, token: &str) -> Option<Value> {
        match self.client.get(&Key::new(token.as_bytes())?) {
            GetAnswer::Found(user) => Some(user),
            GetAnswer::Miss | GetAnswer::Busy => None,
        }
    }

    /// Ends a session.
    fn sign_out(&mut self, token: &str) {
        if let Some(token) = Key::new(token.as_bytes()) {
            let _ = self.client.delete(&token);
        }
    }
}

// A moment, a token, and whose session it is then. No session is nobody's, "".
type Row = (u32, &'static str, &'static str);

// Whether the session is this user's.
fn is_of(sessions: &mut Sessions<'_>, token: &str, name: &str) -> bool {
    match sessions.user_of(token) {
        Some(user) => user.as_bytes() == name.as_bytes(),
        None => name.is_empty(),
    }
}

// The moment of the first row that isn't so.
fn first_wrong(sessions: &mut Sessions<'_>, rows: &[Row]) -> Option<u32> {
    for &(now, token, name) in rows {
        sessions.tick(now);
        if !is_of(sessions, token, name) {
            return Some(now);
        }
    }
    None
}

#[test]
fn a_session_ends_at_its_deadline(rt: HostRuntime) {
    let (index, passes) = Index::new(rt.alloc(), SHAPE).expect(&rt, "an index");
    let mut sessions = Sessions::new(only_client(&rt, &index, passes));

    // The deadline comes in 1,800 seconds, and not before 1,575, seven eighths of them.
    // While many segments are free it is the last multiple of 28 seconds that comes in time: 2,800.
    // One second before it the session stands, and at the deadline it has ended.
    sessions.tick(1_000);
    check_that(&rt, sessions.sign_in("token-1", "alice"));
    let rows = [
        (1_000, "token-1", "alice"),
        (1_000, "token-2", ""),
        (2_799, "token-1", "alice"),
        (2_800, "token-1", ""),
    ];
    same(&rt, &first_wrong(&mut sessions, &rows), &None);

    // Who signs in again has the whole time again: up to 4,592, which is such a multiple too.
    let is_alice = sessions.sign_in("token-1", "alice");
    let is_bob = sessions.sign_in("token-2", "bob");
    same(&rt, &(is_alice, is_bob), &(true, true));
    let rows = [(4_591, "token-1", "alice"), (4_591, "token-2", "bob")];
    same(&rt, &first_wrong(&mut sessions, &rows), &None);
    sessions.sign_out("token-2");
    let rows = [(4_591, "token-2", ""), (4_592, "token-1", "")];
    same(&rt, &first_wrong(&mut sessions, &rows), &None);

    let stats = sessions.client.stats();
    same(&rt, &(stats.stored, stats.hits, stats.misses), &(3, 4, 4));
    same(&rt, &(stats.deleted, stats.segments_refilled), &(1, 2));
}
