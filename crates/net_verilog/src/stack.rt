//! What is open at a place of an expression.
ghost use Rattle.std.specs.Prelude.{◌≡◌, ◌<◌, ◌∷◌, [], IfSome, IfNone, OnOk, drop};
ghost use Rattle.net_verilog.specs.private.Steps.{IsOpening, count_open};

use crate::{Frame, Operator};
use std::alloc::{AllocError, Global};
use std::marker::Model;

/// What is open. Contracts see the list of frames, the innermost first.
#[derive(Drop)]
pub struct Stack {
    frames: Vec<Frame>,
    open: u32,
}

impl Model for Stack {
    ghost use Rattle.std.specs.Prelude.{◌≡◌, List, reverse};
    ghost use Rattle.net_verilog.specs.private.Steps.{count_open};
    ghost use Rattle.net_verilog.specs.declared.operator.Frame.{Frame};

    ghost Value = { List Frame };

    ghost view = { λ s. reverse s.frames.items };

    ghost invariant = { λ s. s.open ≡ count_open (reverse s.frames.items) };
}

impl Stack {
    /// Nothing is open. It takes no memory.
    pub fn new(alloc: Global) -> Stack
        ensures { result ≡ [] }
    {
        Stack {
            frames: Vec::new(alloc),
            open: 0,
        }
    }

    /// How many `(` and `~` are open.
    pub fn open(&self) -> u32
        ensures { result ≡ count_open self.now }
    {
        self.open
    }

    /// Opens a `(` or a `~`.
    pub fn push_open(&mut self, frame: Frame) -> Result<(), AllocError>
        requires few { count_open self.old < 1024 }
        requires opens { IsOpening frame }
        ensures { OnOk result (self.new ≡ frame ∷ self.old) }
    {
        self.frames.push(frame)?;
        self.open += 1;
        Ok(())
    }

    /// Opens an operator after its left operand.
    pub fn push_left(&mut self, line: u32, operator: Operator, net: u32) -> Result<(), AllocError>
        ensures { OnOk result (self.new ≡ Frame.Left line operator net ∷ self.old) }
    {
        self.frames.push(Frame::Left {
            line,
            operator,
            net,
        })?;
        Ok(())
    }

    /// The innermost frame.
    pub fn top(&self) -> Option<Frame>
        ensures some { IfSome result (λ frame. self.now ≡ frame ∷ drop 1 self.now) }
        ensures none { IfNone result (self.now ≡ []) }
    {
        match self.frames.as_slice() {
            [.., frame] => Some(*frame),
            [] => None,
        }
    }

    /// Closes the innermost frame.
    pub fn pop(&mut self)
        ensures { self.new ≡ drop 1 self.old }
    {
        if let Some(frame) = self.frames.pop() {
            match frame {
                Frame::Left { .. } => {}
                _ => {
                    self.open -= 1;
                }
            }
        }
    }
}
