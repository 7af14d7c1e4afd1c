//! What an agreement takes and releases, number by number.
ghost use Rattle.std.specs.Prelude.{◌<◌, ◌≤◌};

use crate::same::same;
use arrayvec::ArrayVec;
use blockack::{Agreement, Placed, window_law};
use std::process::Abort;

type Frames = ArrayVec<(u16, u8), 64>;

/// The returned item, if it wasn't taken.
type Back = Option<Option<u8>>;

/// A step of a story: what comes and what that leads to, or what is read then.
#[derive(Clone, Copy)]
enum Step {
    /// Data with this number and item: the returned item, and the released frames.
    Data(u16, Option<u8>, Back, &'static [(u16, u8)]),
    /// A request with this start: the released frames.
    Request(u16, &'static [(u16, u8)]),
    /// The window's start.
    Start(u16),
    /// The scoreboard's start, and its bits.
    Bitmap(u16, u64),
    /// How many items are held.
    Held(usize),
    /// The most frames that this number passes.
    MostPassed(u16, usize),
    /// Whether this number is wanted.
    Wants(u16, bool),
    /// Whether this number passes alone.
    PassesAlone(u16, bool),
    /// Data with this number passes alone.
    Alone(u16),
    /// All numbers of a window with this start and size, from the last to the first.
    Backwards(u16, u16),
}

use Step::{Alone, Backwards, Bitmap, Data, Held, MostPassed, PassesAlone, Request, Start, Wants};

/// Data comes: this item is returned, and these frames are released.
fn data(
    rt: &impl Abort,
    agreement: &mut Agreement<u8>,
    sent: (u16, Option<u8>),
    back: Back,
    released: &[(u16, u8)],
) {
    let (number, item) = sent;
    let mut out = Frames::new();
    let found = match agreement.on_data(number % 4096, item, &mut out) {
        Placed::Taken => None,
        Placed::Back(item) => Some(item),
    };
    same(rt, (number, found), (number, back), "handed back");
    same(rt, out.as_slice(), released, "handed up");
}

/// A request comes: these frames are released.
fn request(rt: &impl Abort, agreement: &mut Agreement<u8>, start: u16, released: &[(u16, u8)]) {
    let mut out = Frames::new();
    agreement.on_bar(start % 4096, &mut out);
    same(rt, out.as_slice(), released, "request");
}

/// The next number passes alone.
fn pass_alone(rt: &impl Abort, agreement: &mut Agreement<u8>, number: u16) {
    let number = number % 4096;
    assert!(rt; agreement.passes_alone(number));
    agreement.pass_alone(number);
}

/// The first number of a window of this size comes last: all are released, in order.
fn first_comes(rt: &impl Abort, agreement: &mut Agreement<u8>, start: u16, size: u16)
    requires { start < 4096 }
{
    let mut out = Frames::new();
    let _placed = agreement.on_data(start, Some(0), &mut out);
    same(rt, out.len(), size as usize, "handed up");
    let frames = out.as_slice();
    for place in 0..frames.len() {
        let (number, frame) = frames[place];
        let wanted = (usize::from(start) + place) % 4096;
        let found = (usize::from(number), usize::from(frame));
        same(rt, found, (wanted, place), "number, frame");
    }
}

/// The numbers of a window of this size come backwards.
fn comes_backwards(rt: &impl Abort, agreement: &mut Agreement<u8>, start: u16, size: u16)
    requires start { start < 4096 }
    requires size { size ≤ 64 }
{
    for ahead in (1..size).rev() {
        let number = (start + ahead) % 4096;
        data(rt, agreement, (number, Some(ahead as u8)), None, &[]);
    }
    first_comes(rt, agreement, start, size);
}

/// Follows a step, and fails unless it leads to what it says.
fn follow(rt: &impl Abort, agreement: &mut Agreement<u8>, next: Step, what: &str) {
    match next {
        Data(number, item, back, out) => return data(rt, agreement, (number, item), back, out),
        Request(start, out) => return request(rt, agreement, start, out),
        Start(start) => return same(rt, agreement.start(), start, what),
        Bitmap(start, bits) => return same(rt, agreement.bitmap(), (start, bits), what),
        Held(count) => return same(rt, agreement.held(), count, what),
        MostPassed(number, most) => {
            let found = agreement.most_passed(number % 4096);
            return same(rt, (number, found), (number, most), what);
        }
        Wants(number, wanted) => {
            let found = agreement.wants(number % 4096);
            return same(rt, (number, found), (number, wanted), what);
        }
        PassesAlone(number, alone) => {
            let found = agreement.passes_alone(number % 4096);
            return same(rt, (number, found), (number, alone), what);
        }
        Alone(number) => return pass_alone(rt, agreement, number),
        Backwards(start, size) => {
            return comes_backwards(rt, agreement, start % 4096, size.min(64));
        }
    }
}

/// An agreement's first number, its size, what comes, and the frames that its end releases.
type Story = (
    &'static str,
    u16,
    u16,
    &'static [Step],
    &'static [(u16, u8)],
);

static STORIES: &[Story] = &[
    (
        "hands up in order over the wrap",
        4094,
        4,
        &[
            Data(4095, Some(1), None, &[]),
            Data(0, Some(2), None, &[]),
            Data(4094, Some(0), None, &[(4094, 0), (4095, 1), (0, 2)]),
            Start(1),
            Request(4094, &[]),
            Bitmap(4094, 7),
        ],
        &[],
    ),
    (
        "far number moves the window",
        100,
        8,
        &[
            Data(2148, Some(1), Some(Some(1)), &[]),
            Start(100),
            Data(2147, Some(2), None, &[]),
            Start(2140),
            Request(2140, &[]),
            Bitmap(2140, 0x80),
            Start(2140),
        ],
        &[(2147, 2)],
    ),
    (
        "request hands up what is older",
        100,
        8,
        &[
            Data(102, Some(2), None, &[]),
            Data(104, Some(4), None, &[]),
            Held(2),
            MostPassed(100, 3),
            MostPassed(103, 0),
            MostPassed(108, 3),
            Wants(103, true),
            Wants(104, false),
            Wants(99, false),
            Request(103, &[(102, 2)]),
            Bitmap(103, 2),
            Data(103, Some(3), None, &[(103, 3), (104, 4)]),
            Start(105),
        ],
        &[],
    ),
    (
        "dropped frame holds its place",
        100,
        8,
        &[
            Data(101, Some(1), None, &[]),
            Data(100, None, None, &[(101, 1)]),
            Start(102),
        ],
        &[],
    ),
    (
        "duplicate is handed back",
        100,
        8,
        &[
            Data(103, Some(3), None, &[]),
            Data(103, Some(9), Some(Some(9)), &[]),
        ],
        &[(103, 3)],
    ),
    // 2148 lies 2047 after the window's start and 2048 after the scoreboard's.
    (
        "window and scoreboard move apart",
        100,
        8,
        &[
            Data(100, Some(0), None, &[(100, 0)]),
            Start(101),
            Bitmap(100, 1),
            Data(2148, Some(1), None, &[]),
            Start(2141),
            Bitmap(100, 1),
        ],
        &[(2148, 1)],
    ),
    (
        "end hands up all that is held",
        4090,
        64,
        &[
            Data(57, Some(3), None, &[]),
            Data(4091, Some(1), None, &[]),
            Data(5, None, None, &[]),
            Data(0, Some(2), None, &[]),
        ],
        &[(4091, 1), (0, 2), (57, 3)],
    ),
    // 0 comes first, with nothing after it; then 2 is held, so that 1 isn't alone.
    (
        "next number passes alone",
        4095,
        1,
        &[
            PassesAlone(4095, true),
            PassesAlone(0, false),
            Alone(4095),
            Start(0),
            Bitmap(4095, 1),
        ],
        &[],
    ),
    (
        "next number doesn't pass alone",
        0,
        64,
        &[Data(1, Some(1), None, &[]), PassesAlone(0, false)],
        &[(1, 1)],
    ),
    (
        "a whole window of 1 comes backwards over the wrap",
        4095,
        1,
        &[Backwards(4095, 1), Start(0), Bitmap(4095, 1)],
        &[],
    ),
    (
        "a whole window of 31 comes backwards over the wrap",
        4080,
        31,
        &[Backwards(4080, 31), Start(15), Bitmap(4080, 0x7fff_ffff)],
        &[],
    ),
    (
        "a whole window of 63 comes backwards over the wrap",
        4064,
        63,
        &[
            Backwards(4064, 63),
            Start(31),
            Bitmap(4064, 0x7fff_ffff_ffff_ffff),
        ],
        &[],
    ),
    (
        "a whole window of 64 comes backwards over the wrap",
        4063,
        64,
        &[Backwards(4063, 64), Start(31), Bitmap(4063, u64::MAX)],
        &[],
    ),
];

/// An agreement from this number on with this size.
fn opened(rt: &impl Abort, start: u16, size: u16) -> Agreement<u8> {
    let fits = start < 4096 && 1 <= size && size <= 64;
    assert!(rt; fits);
    Agreement::open(start, size)
}

/// Tells a story from its beginning to the agreement's end.
fn goes(rt: &impl Abort, story: &Story) {
    let (what, start, size, steps, left) = story;
    let mut agreement = opened(rt, *start, *size);
    same(rt, agreement.size(), *size, what);
    for next in *steps {
        follow(rt, &mut agreement, *next, what);
    }
    let mut out = Frames::new();
    agreement.close(&mut out);
    same(rt, out.as_slice(), *left, what);
}

#[test]
fn windows_hand_up_in_order(rt: HostRuntime) {
    for story in STORIES {
        goes(&rt, story);
    }
}

#[test]
fn law_is_stated(_rt: HostRuntime) {
    window_law::<u8>();
}
