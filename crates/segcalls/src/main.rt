//! Makes the calls of clients that its input names, one in each line, and writes what each answered.
#![tactic(auto)]

mod asked;
mod cast;
mod counts;
mod into;
mod locker;
mod many;
mod opening;
mod player;
mod told;

use cast::serve;
use std::io;

fn main(rt: HostRuntime) -> io::Result<()> {
    let text = io::read_to_string(rt.alloc(), rt.reader())?;
    let mut lines = text.lines();
    let mut next = lines.next();
    for _ in 0..u64::MAX {
        let Some(line) = next else {
            break;
        };
        let (told, opening) = serve(rt.alloc(), line, &mut lines)?;
        print!(&rt; "{told}")?;
        next = opening;
    }
    Ok(())
}
