//! The outputs of an event, as C reads them.

ghost use Rattle.std.specs.Prelude.{◌≡◌, Some, length, min, slice_get, take};
ghost use Rattle.apd_c.specs.Held.{held};
ghost use Rattle.apd_c.specs.Outs.{body_of, head_of, nothing_out, outs_of, up_head, user_of};

use crate::certificates::copied;
use crate::handle::{Content, Handle};
use ap_core::{Out, Up};

/// The outputs of an event, and the number that its caller gave it.
#[derive(Drop)]
pub struct Outputs {
    pub user: u64,
    pub list: Vec<Out>,
}

/// An output without its bytes. The kind is 1 for a frame to send, 2 for data passed up, 3 for a note, and 0 for no
/// output. Fields that a kind doesn't have are 0. The TID of data without one is 255.
#[repr(C)]
#[derive(Clone, Copy)]
pub struct OutHead {
    pub kind: u32,
    /// The length of the frame or the data.
    pub length: usize,
    /// The number that the caller gave the event.
    pub user: u64,
    pub source: [u8; 6],
    pub destination: [u8; 6],
    pub number: u16,
    pub tid: u8,
    pub mark: u8,
    /// The number of the note.
    pub note: u8,
}

/// The head for no output.
fn nothing() -> OutHead
    ensures { result ≡ nothing_out }
{
    OutHead {
        kind: 0,
        length: 0,
        user: 0,
        source: [0, 0, 0, 0, 0, 0],
        destination: [0, 0, 0, 0, 0, 0],
        number: 0,
        tid: 0,
        mark: 0,
        note: 0,
    }
}

/// The head of data passed up.
fn head_of_up(user: u64, up: &Up) -> OutHead
    ensures { result ≡ up_head user up.now }
{
    let tid = match up.tid {
        Some(tid) => tid.number(),
        None => 255,
    };
    OutHead {
        kind: 2,
        length: up.body.bytes().len(),
        user,
        source: up.source.octets(),
        destination: up.destination.octets(),
        number: up.number.number(),
        tid,
        mark: up.mark,
        note: 0,
    }
}

/// The head of an element of a list, with the caller's number.
fn head_in(user: u64, outs: &[Out], at: usize) -> OutHead
    ensures { result ≡ head_of user (slice_get outs.now at) }
{
    match outs.get(at) {
        None => nothing(),
        Some(out) => match out {
            Out::Send(bytes) => {
                let mut head = nothing();
                head.kind = 1;
                head.length = bytes.bytes().len();
                head.user = user;
                head
            }
            Out::Up(up) => head_of_up(user, up),
            Out::Note(number) => {
                let mut head = nothing();
                head.kind = 3;
                head.user = user;
                head.note = *number;
                head
            }
        },
    }
}

/// The bytes of an element of a list.
fn body_in(outs: &[Out], at: usize) -> &[u8]
    ensures { result.now ≡ body_of (slice_get outs.now at) }
{
    match outs.get(at) {
        None => &[],
        Some(out) => match out {
            Out::Send(bytes) => bytes.bytes(),
            Out::Up(up) => up.body.bytes(),
            Out::Note(_) => &[],
        },
    }
}

/// The list that a content is; empty if it is something else.
fn list(content: &Content) -> &[Out]
    ensures { result.now ≡ outs_of (Some content.now) }
{
    match content {
        Content::Outs(outs) => outs.list.as_slice(),
        _ => &[],
    }
}

/// The caller's number that they are held with; 0 if the content is something else.
fn user(content: &Content) -> u64
    ensures { result ≡ user_of (Some content.now) }
{
    match content {
        Content::Outs(outs) => outs.user,
        _ => 0,
    }
}

/// The number of outputs that a handle holds; 0 if it holds none.
#[unsafe(no_mangle)]
pub extern "C" fn apd_c_outs(outs: &mut Handle) -> usize
    ensures count { result ≡ length (outs_of (held outs.old)) }
    ensures kept { held outs.new ≡ held outs.old }
{
    match outs.lent() {
        None => 0,
        Some(content) => list(content).len(),
    }
}

/// The output at an index, without its bytes. Its kind is 0 if there is none at that index.
#[unsafe(no_mangle)]
pub extern "C" fn apd_c_out(outs: &mut Handle, at: usize) -> OutHead
    ensures is { result ≡
        head_of (user_of (held outs.old)) (slice_get (outs_of (held outs.old)) at) }
    ensures kept { held outs.new ≡ held outs.old }
{
    match outs.lent() {
        None => nothing(),
        Some(content) => head_in(user(content), list(content), at),
    }
}

/// Copies as many bytes of the output at an index as fit, and returns how many it has.
#[unsafe(no_mangle)]
pub extern "C" fn apd_c_out_bytes(outs: &mut Handle, at: usize, into: &mut [u8]) -> usize
    ensures count { result ≡ length (body_of (slice_get (outs_of (held outs.old)) at)) }
    ensures copied { take (min result (length into.old)) into.new ≡
        take (min result (length into.old)) (body_of (slice_get (outs_of (held outs.old)) at)) }
    ensures kept { held outs.new ≡ held outs.old }
{
    match outs.lent() {
        None => 0,
        Some(content) => {
            let body = body_in(list(content), at);
            copied(body, into);
            body.len()
        }
    }
}
