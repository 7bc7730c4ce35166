//! What the first word of a command says of the rest. A lot and an order are told apart before.

/// The first words of both versions.
#[derive(Clone, Copy)]
pub enum CommandHead {
    Rules,
    Put,
    Drop,
    Attribute,
    Priority,
    Unlot,
    Print,
    Faults,
    Grammar,
    Stats,
    Quiet,
}

/// The first words of version 2 alone.
#[derive(Clone, Copy)]
pub enum FurtherHead {
    City,
    Dump,
    Asset,
    Dress,
    Undress,
    Model,
    Bill,
    Undo,
    Redo,
    Trace,
    Judge,
}
