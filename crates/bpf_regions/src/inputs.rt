//! A program's input: the received frame and the hook's context.

ghost use Rattle.std.specs.Prelude.{◌≡◌, ◌≤◌, ◌↔◌, ℕ, List, length, IsSome, IfSome};

use std::marker::Model;

/// The bytes of a received frame, at most 2400.
#[derive(Drop)]
pub struct Frame<'a> {
    bytes: &'a [u8],
}

impl<'a> Model for Frame<'a> {
    ghost Value = { List ℕ };

    ghost view = { λ f. f.bytes.now };

    ghost invariant = { λ f. length f.bytes.now ≤ 2400 };
}

impl<'a> Frame<'a> {
    /// The frame of these bytes; `None` if there are more than 2400.
    pub fn new(bytes: &'a [u8]) -> Option<Self>
        ensures valid { IsSome result ↔ (length bytes.now ≤ 2400) }
        ensures value { IfSome result (λ f. f ≡ bytes.now) }
    {
        if bytes.len() <= 2400 {
            Some(Frame { bytes })
        } else {
            None
        }
    }

    pub fn bytes(&self) -> &'a [u8]
        ensures is { result.now ≡ self.now }
        ensures short { length self.now ≤ 2400 }
    {
        self.bytes
    }
}

/// The 32 bytes that describe the station and its request to a program.
#[derive(Clone, Copy)]
pub struct Context {
    bytes: [u8; 32],
}

impl Model for Context {
    ghost Value = { List ℕ };

    ghost view = { λ c. c.bytes };

    ghost inverse = { λ bytes. record { bytes = bytes } };
}

impl Context {
    pub fn new(bytes: [u8; 32]) -> Self
        ensures is { result ≡ bytes }
    {
        Context { bytes }
    }

    pub fn bytes(&self) -> &[u8; 32]
        ensures is { result.now ≡ self.now }
        ensures long { length self.now ≡ 32 }
    {
        &self.bytes
    }
}
