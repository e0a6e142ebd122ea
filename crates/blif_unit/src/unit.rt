// A model as its statements, with names in place of signals.

use tm_bits::Cover;
use tm_circuit::{Edge, Name};

/// A model: its statements in the order of the text.
#[derive(Drop)]
pub struct Unit {
    pub name: Name,
    /// The line of its `.model`; 0 where it has none.
    pub line: u32,
    pub body: Vec<Stated>,
}

/// A statement and the line on which it begins.
#[derive(Drop)]
pub struct Stated {
    pub line: u32,
    pub what: Statement,
}

/// What a statement says.
#[derive(Drop)]
pub enum Statement {
    Inputs(Vec<Name>),
    Outputs(Vec<Name>),
    Clock(Vec<Name>),
    Gate {
        pins: Vec<Name>,
        name: Name,
        cover: Cover,
    },
    Latch {
        next: Name,
        name: Name,
        init: bool,
        control: Option<Control>,
    },
    Place {
        model: Name,
        bindings: Vec<Binding>,
    },
}

/// The clock of a latch, and the edge at which the latch takes its next value.
#[derive(Drop)]
pub struct Control {
    pub name: Name,
    pub edge: Edge,
}

/// A name of a placed model and the name that it is in the model around.
#[derive(Drop)]
pub struct Binding {
    pub formal: Name,
    pub actual: Name,
}
