//! Declarations.

/// What a name is declared as: a vector has its lowest and highest index.
#[derive(Clone, Copy)]
pub struct Declared {
    pub range: Option<(u32, u32)>,
    pub directed: bool,
}

/// `input`, `output`, or `wire` alone.
#[derive(Clone, Copy)]
pub enum Direction {
    Input,
    Output,
    Wire,
}
