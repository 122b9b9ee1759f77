//! The clients of an index, which take turns.
ghost use Rattle.std.specs.Prelude.{All};
ghost use Rattle.segindex.specs.Words.{board_of, IsQuiet, shape_of};
ghost use Rattle.segread.specs.Words.{IsHoldOf};

use crate::asked::{Asked, key_of};
use crate::into::hex;
use crate::locker::Locker;
use crate::opening::shape_asked;
use crate::player::Player;
use segclient::{Client, Hold, HoldAnswer, Index, Pass, clients, keep_back};
use std::alloc::{AllocError, Global};
use std::str::Lines;

/// The clients, and a pass that locks buckets if one is kept back. A client that holds an item is away.
#[derive(Drop)]
struct Cast<'i> {
    players: Vec<Option<Player<'i>>>,
    locker: Option<Locker<'i>>,
    /// What was told so far.
    told: String,
}

impl Cast<'_> {
    fn tell(&mut self, line: &str) -> Result<(), AllocError> {
        self.told.push_str(line)?;
        self.told.push_str("\n")
    }
}

/// Opens an index as the first line asks, and makes the calls of the others up to the next opening.
/// Returns what was told, and the line of that opening.
pub fn serve<'t>(
    alloc: Global,
    opening: &str,
    lines: &mut Lines<'t>,
) -> Result<(String, Option<&'t str>), AllocError> {
    let asked = Asked::new(opening);
    let Some(shape) = shape_asked(&asked) else {
        return Ok((format!(in alloc; "NO_SHAPE\n")?, lines.next()));
    };
    match Index::new(alloc, shape) {
        Ok((index, passes)) => serve_index(alloc, &index, passes, &asked, lines),
        Err(_) => Ok((format!(in alloc; "NO_INDEX\n")?, lines.next())),
    }
}

// The same, by clients of this index.
fn serve_index<'t>(
    alloc: Global,
    index: &Index,
    mut passes: Vec<Pass>,
    asked: &Asked<'_>,
    lines: &mut Lines<'t>,
) -> Result<(String, Option<&'t str>), AllocError>
    requires { All (IsQuiet (board_of index.now)) passes.items }
{
    let locker = locker_asked(index, &mut passes, asked);
    let mut players = Vec::new(alloc);
    for client in clients(alloc, index, passes)? {
        players.push(Some(Player::new(client)))?;
    }
    let told = format!(in alloc; "OPEN\n")?;
    let mut cast = Cast {
        players,
        locker,
        told,
    };
    let next = run(alloc, &mut cast, lines)?;
    Ok((cast.told, next))
}

// The pass that locks buckets, if the line asks for one. It is kept back from the clients.
fn locker_asked<'i>(
    index: &'i Index,
    passes: &mut Vec<Pass>,
    asked: &Asked<'_>,
) -> Option<Locker<'i>>
    requires { All (IsQuiet (board_of index.now)) passes.old.items }
    ensures { All (IsQuiet (board_of index.now)) passes.new.items }
{
    if asked.word("locker").is_none() {
        return None;
    }
    match keep_back(index, passes) {
        Some(pass) => Some(Locker::new(index, pass)),
        None => None,
    }
}

// Makes the calls up to the next opening, whose line it returns.
fn run<'t>(
    alloc: Global,
    cast: &mut Cast<'_>,
    lines: &mut Lines<'t>,
) -> Result<Option<&'t str>, AllocError> {
    for _ in 0..u64::MAX {
        let Some(line) = lines.next() else {
            break;
        };
        let asked = Asked::new(line);
        match asked.name {
            "open" => return Ok(Some(line)),
            "hold" => hold(alloc, cast, &asked, lines)?,
            "lock" => lock(alloc, cast, &asked, lines)?,
            _ => call(alloc, cast, &asked)?,
        }
    }
    Ok(None)
}

// Makes a call of one of the clients.
fn call(alloc: Global, cast: &mut Cast<'_>, asked: &Asked<'_>) -> Result<(), AllocError> {
    match cast.players.get_mut(asked.who) {
        Some(Some(player)) => {
            let told = player.make(alloc, asked)?;
            cast.tell(told.as_str())
        }
        _ => cast.tell("NO_CLIENT"),
    }
}

// Makes the calls up to a line of this name.
fn run_to(
    alloc: Global,
    cast: &mut Cast<'_>,
    lines: &mut Lines<'_>,
    name: &str,
) -> Result<(), AllocError> {
    for _ in 0..u64::MAX {
        let Some(line) = lines.next() else {
            break;
        };
        let asked = Asked::new(line);
        if asked.name == name {
            break;
        }
        call(alloc, cast, &asked)?;
    }
    Ok(())
}

// A client holds an item while the others make calls, up to a line `release`.
fn hold(
    alloc: Global,
    cast: &mut Cast<'_>,
    asked: &Asked<'_>,
    lines: &mut Lines<'_>,
) -> Result<(), AllocError> {
    let number = asked.with.parse::<u32>().unwrap_or(0);
    let Some(Some(mut player)) = cast.players.get_mut(asked.who).map(Option::take) else {
        return cast.tell("NO_CLIENT");
    };
    let told = match key_of(number) {
        Some(key) => match player.client.hold(&key) {
            HoldAnswer::Holding(hold) => beside(alloc, cast, lines, &mut player.client, hold),
            HoldAnswer::Miss => cast.tell("MISS"),
            HoldAnswer::Busy => cast.tell("BUSY"),
            HoldAnswer::AlreadyHolding => cast.tell("ALREADY_HOLDING"),
        },
        None => cast.tell("NO_KEY"),
    };
    if let Some(place) = cast.players.get_mut(asked.who) {
        *place = Some(player);
    }
    told
}

// The value that was held is told when it is released.
fn beside(
    alloc: Global,
    cast: &mut Cast<'_>,
    lines: &mut Lines<'_>,
    client: &mut Client<'_>,
    hold: Hold<'_>,
) -> Result<(), AllocError>
    requires { IsHoldOf (shape_of client.old.index.now) hold client.old.member.pass }
{
    let begun = cast.tell("HOLDING");
    let ended = run_to(alloc, cast, lines, "release");
    let value = client.held_value(&hold);
    client.release(hold);
    begun?;
    ended?;
    let bytes = hex(alloc, value.as_bytes())?;
    let told = format!(in alloc; "RELEASED {bytes}")?;
    cast.tell(told.as_str())
}

// The bucket of a key is locked while the clients make calls, up to a line `unlock`.
fn lock(
    alloc: Global,
    cast: &mut Cast<'_>,
    asked: &Asked<'_>,
    lines: &mut Lines<'_>,
) -> Result<(), AllocError> {
    let number = asked.with.parse::<u32>().unwrap_or(0);
    let Some(key) = key_of(number) else {
        return cast.tell("NO_KEY");
    };
    let Some(mut locker) = cast.locker.take() else {
        return cast.tell("NO_LOCKER");
    };
    cast.tell(locker.lock(&key))?;
    run_to(alloc, cast, lines, "unlock")?;
    cast.tell(locker.unlock())?;
    cast.locker = Some(locker);
    Ok(())
}
