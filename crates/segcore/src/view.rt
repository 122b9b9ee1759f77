//! What a pass knows.
use crate::Event;
use std::collections::LinkedList;

/// What a pass knows of the table. No value of this type is made.
pub struct View {
    /// The number of the pass, which is that of its seat.
    pub number: u32,
    /// The trace that the pass has seen, the newest event first.
    pub trace: LinkedList<Event>,
    /// What each step of the pass saw: the trace just before it, the newest step's first.
    pub looks: LinkedList<LinkedList<Event>>,
    /// How many steps all passes had taken together by the pass's last one.
    pub turn: u64,
    /// In the view of pass 0, how many passes there are.
    pub dealt: u32,
}
