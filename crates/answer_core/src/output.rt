//! What a command writes, and the status that the program ends with.

/// The bytes of an output, and the status that the program ends with.
#[derive(Drop)]
pub struct Output {
    /// 0, or 1 where the answer is no.
    pub status: u8,
    /// All that is written.
    pub text: Vec<u8>,
}
