// What a gate is split into.

use tm_circuit::Signal;

/// What a new gate reads.
#[derive(Clone, Copy, Debug)]
pub enum Wire {
    /// A pin of the gate that is split.
    Pin(Signal),
    /// Another new gate of the same gate, by its number from 0 in the order made.
    Made(usize),
}

/// A wire with a polarity: it holds where the wire has the bit `positive`.
#[derive(Clone, Copy, Debug)]
pub struct Literal {
    pub wire: Wire,
    pub positive: bool,
}

/// A gate that is made of literals, but for its name and the polarity of its cover.
#[derive(Clone, Copy, Debug)]
pub enum Piece {
    /// Of a cover without rows.
    NoRow,
    /// Of a cover with a row that asks for nothing.
    BareRow,
    /// Where no two literals are joined.
    Alone(Literal),
    /// Both literals hold.
    Both(Literal, Literal),
    /// At least one of the literals holds.
    Either(Literal, Literal),
}
