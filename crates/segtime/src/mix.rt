//! What the commands of a mix are.

/// How many commands are at hand at a time, in the mixes of sixteen.
pub const PIECE: usize = 16;

/// How the commands of a mix are made.
#[derive(Clone, Copy, PartialEq, Eq)]
pub enum Way {
    /// One is at hand at a time.
    Alone,
    /// Several are at hand: gets, made by one call.
    Together,
    /// Several are at hand: one after another, after a look ahead at the keys of all.
    Ahead,
    /// Several are at hand: one after another.
    Apart,
}

/// A mix. bench/README.md explains each.
#[derive(Clone, Copy)]
pub enum Mix {
    Replaces,
    Fetches,
    Mixed,
    /// So many of a hundred commands are gets, and the others sets.
    Shared(u32),
    /// So many of a hundred commands are gets, and the others modify.
    Modifying(u32),
}

/// A command.
#[derive(Clone, Copy)]
pub enum Kind {
    Get,
    Gets,
    Set,
    Add,
    Replace,
    Cas,
    Delete,
    /// A gets and, if it found its key, a cas with the version that it found.
    Modify,
    /// A get, and a put if it missed.
    Fetch,
}

/// The mix of one of the names, and its way. Those of one letter are YCSB's.
pub fn mix_named(name: &str) -> Option<(Mix, Way)> {
    let way = match name {
        "gets16" => Way::Together,
        "mixed16" => Way::Ahead,
        "gets16apart" | "mixed16apart" => Way::Apart,
        _ => Way::Alone,
    };
    let mix = match name {
        "plan" | "sets" => Mix::Shared(0),
        "replaces" => Mix::Replaces,
        "a" => Mix::Shared(50),
        "b" => Mix::Shared(95),
        "gets" | "c" | "gets16" | "gets16apart" => Mix::Shared(100),
        "f" => Mix::Modifying(50),
        "fetches" => Mix::Fetches,
        "mixed" | "mixed16" | "mixed16apart" => Mix::Mixed,
        _ => return None,
    };
    Some((mix, way))
}

impl Mix {
    /// The command that a number at random asks.
    pub fn kind(self, draw: u32) -> Kind {
        match self {
            Mix::Shared(gets) | Mix::Modifying(gets) if draw % 100 < gets => Kind::Get,
            Mix::Shared(_) => Kind::Set,
            Mix::Modifying(_) => Kind::Modify,
            Mix::Replaces => Kind::Replace,
            Mix::Fetches => Kind::Fetch,
            Mix::Mixed => mixed(draw),
        }
    }
}

fn mixed(draw: u32) -> Kind {
    match (draw % 8, draw / 8 % 3) {
        (0..=3, _) => Kind::Get,
        (4, _) => Kind::Gets,
        (5, _) => Kind::Set,
        (6, 0) => Kind::Add,
        (6, 1) => Kind::Replace,
        (6, _) => Kind::Cas,
        _ => Kind::Delete,
    }
}
