//! What the seats of the table know, the table's rule, and how seats are dealt.
use atomic_table::{Join, Play, Split, TableRule};
use segcore::{Event, View};
use segword::{Key, Limits, Shape, Value};
use std::collections::LinkedList;
use std::marker::Brand;

/// The item that a pass holds, as contracts see it. No value of this type is made.
pub struct Held {
    pub segment: u32,
    pub key: Key,
    pub value: Value,
    /// What had happened at the moment at which the key stood with the value in the segment.
    pub trace: LinkedList<Event>,
}

/// The bucket that a pass has locked, as contracts see it. No value of this type is made.
pub struct Locked {
    pub bucket: u32,
    /// What had happened when the bucket was locked.
    pub trace: LinkedList<Event>,
}

/// What a pass keeps in mind, only for contracts.
/// No word, rule or other pass depends on it, and no value of this type is made.
pub struct Memo {
    pub holding: Option<Held>,
    pub locked: Option<Locked>,
}

/// What a seat of the table knows. No value of this type is made.
pub struct Sight {
    /// What a pass knows.
    pub view: View,
    /// What another pass had seen when this one learned of it.
    pub met: LinkedList<Event>,
    /// Whether the seat is that of a pass. Other seats only carry to a pass what another one has seen.
    pub is_pass: bool,
    pub memo: Memo,
    /// What the passes knew that were handed to this seat. They take no more steps.
    pub ended: LinkedList<View>,
}

/// What the rule fixes for as long as the table is there.
#[derive(Clone, Copy)]
pub struct Constants {
    pub shape: Shape,
    pub limits: Limits,
}

/// The rule of the table.
pub struct Law;

impl TableRule<(), Sight, Constants> for Law {
    ghost use Rattle.segbase.specs.Ruled.{Rule, first_sight};

    ghost holds = { Rule };

    ghost first = { λ _. first_sight };
}

// What a step tells is picked at each call.
impl Play<(), Sight> for Brand {
    ghost then = { λ _ _ _ _. Unit {0} };
}

// The first pass deals the others.
pub(crate) struct Deal;

impl Split<Sight> for Deal {
    ghost use Rattle.segbase.specs.Ruled.{dealer, newcomer};

    ghost left = { dealer };

    ghost right = { newcomer };
}

// A seat beside a pass's own, which carries what the pass has seen.
pub(crate) struct Carry;

impl Split<Sight> for Carry {
    ghost use Rattle.segbase.specs.Ruled.{same_sight, witness};

    ghost left = { same_sight };

    ghost right = { witness };
}

// One more seat of what a seat that is no pass's carries.
pub(crate) struct Copies;

impl Split<Sight> for Copies {
    ghost use Rattle.segbase.specs.Ruled.{same_sight};

    ghost left = { same_sight };

    ghost right = { same_sight };
}

// A pass learns what such a seat carries.
pub(crate) struct Tell;

impl Join<Sight> for Tell {
    ghost use Rattle.segbase.specs.Ruled.{meets, spent};

    ghost both = { meets };

    ghost spent = { spent };
}

// A seat of no pass, which knows nothing yet.
pub(crate) struct Nobody;

impl Play<(), Sight> for Nobody {
    ghost use Rattle.std.specs.Prelude.{◌≡◌, []};
    ghost use Rattle.segbase.specs.Ruled.{spent};

    ghost then = { λ _ _ _ me. me ≡ (spent, []) };
}

// A pass is given up to such a seat.
pub(crate) struct GiveUp;

impl Join<Sight> for GiveUp {
    ghost use Rattle.segbase.specs.Ruled.{ends, spent};

    ghost both = { ends };

    ghost spent = { spent };
}

// What a pass keeps in mind is picked at each call.
impl Split<Sight> for Brand {
    ghost use Rattle.segbase.specs.Ruled.{same_sight, witness};

    ghost left = { same_sight };

    ghost right = { witness };
}
