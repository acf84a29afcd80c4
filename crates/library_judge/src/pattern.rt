// What the reading makes of a trace: its states and its messages.
use model::{Interval, PROCESSES};

// A state that ends an interval, or is live: its process, and its dependency vector. Its place among the states is called its row.
#[derive(Clone, Copy)]
pub struct State {
    pub process: u16,
    pub vector: [Interval; PROCESSES],
}

// What became of a message: it is lost, is under way to its receiver, or was received in a row.
#[derive(Clone, Copy)]
pub enum Fate {
    Lost,
    UnderWay(u16),
    Received(u16),
}

// A message that was sent: the row that sent it, the vector that it carries, and what became of it. Message m has place m - 1.
#[derive(Clone, Copy)]
pub struct Sent {
    pub from: u16,
    pub carried: [Interval; PROCESSES],
    pub fate: Fate,
}
