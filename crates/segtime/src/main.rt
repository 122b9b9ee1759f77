//! Times the index, on so many threads over so many keys, as the programs of bench/common time other stores.
#![tactic(auto)]

mod asked;
mod draws;
mod mix;
mod round;
mod tally;
mod worker;

use asked::asked_of;
use round::{measure, tell_plan};
use std::process::ExitCode;
use std::{env, io};

fn main(rt: HostRuntime) -> io::Result<ExitCode> {
    let mut words = Vec::new(rt.alloc());
    for word in env::args(&rt)?.skip(1) {
        words.push(word)?;
    }
    match asked_of(&words) {
        Some(asked) if asked.is_plan => tell_plan(&rt, &asked)?,
        Some(asked) => measure(&rt, &asked)?,
        None => {
            eprintln!(&rt;
                "usage: segtime MIX uniform|zipf KEYS THREADS TIMES SAMPLE|counts queues|nothing"
            )?;
            eprintln!(&rt; "               [BUCKETS OVERFLOW SEGMENTS ROWS]")?;
            eprintln!(&rt; "       segtime plan uniform KEYS THREADS")?;
            return Ok(ExitCode::from(2));
        }
    }
    Ok(ExitCode::SUCCESS)
}
