use std::collections::LinkedList;

/// What a seat or a note knows. No value of it is made: it takes no bytes.
pub struct View<E, G> {
    /// The numbers of the seat, each with its entries; none for a note.
    pub mine: LinkedList<(u64, LinkedList<E>)>,
    /// The beginning of the history that was seen.
    pub seen: LinkedList<E>,
    /// The place for a stamp beside each entry that was seen. No step writes it.
    pub stamps: LinkedList<u64>,
    /// What the views that were joined had seen.
    pub told: LinkedList<LinkedList<E>>,
    /// The lengths that its looks loaded.
    pub looks: LinkedList<u64>,
    /// The basis of the history; none where the view was joined away.
    pub basis: Option<G>,
    /// How many seats the inbox has; 0 where the view was joined away.
    pub seats: u64,
    /// The place for the ticket of a seat that waits. No step writes it.
    pub ticket: u64,
    /// It has the turn.
    pub turn: bool,
    /// It has the turn, and has not taken the slot yet.
    pub fresh: bool,
}

/// What the table is told when it is made: the first value, and how many seats there are.
pub struct Founding<M> {
    pub value: M,
    pub seats: u32,
}
