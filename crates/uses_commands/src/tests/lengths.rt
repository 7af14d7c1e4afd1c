//! Files of the greatest length and longer ones, and such as come in parts; files without an end, lack of memory, and
//! writers that fail.

use crate::tests::same::same;
use crate::tests::shelf::{CAPTURE, CERTIFICATE, FILES};
use crate::tests::told::Text::{All, Start};
use crate::tests::told::{ANY, Told, Wanted, does, folder_of, tells};
use crate::tests::writers::Narrow;
use apd_files::{FileFault, Files};
use apd_program::apd_main;
use std::alloc::Global;
use std::io::ErrorKind;
use std::process::Abort;

/// The most bytes of a block.
const BLOCK: usize = 1 << 16;

/// A text so many times and a text behind it, cut at a size or with spaces after them up to it, if it isn't 0: they are
/// the file `long`, which is read in blocks of how many bytes; and a command's words, with what is wanted of it.
type Long = (
    (&'static [u8], usize, &'static [u8], usize, usize),
    &'static [&'static str],
    Wanted<'static, 'static>,
);

/// Fails if a command with such a file does anything else.
fn reads(rt: &impl Abort, alloc: Global, row: &Long) {
    let ((text, times, rest, size, step), words, wanted) = *row;
    let mut long = text.repeat(alloc, times).expect(rt, "memory");
    long.extend_from_slice(rest).expect(rt, "memory");
    if size != 0 {
        long.resize(size, b' ').expect(rt, "memory");
    }
    let mut files = folder_of(alloc, FILES, ("long", long.as_slice()), step);
    does(rt, alloc, &mut files, words, wanted);
    drop(files);
}

/// A slot.
const SLOT: &[u8] = b"b700000000000000\n";

const VERIFY: &[&str] = &["apd", "verify", "data", "long"];

const TEXT: &[u8] = b"mov r0, 1\nexit\n";

const CODE: &[u8] = b"b700000001000000\n9500000000000000\n";

const CONFIG: &[u8] = b"bssid = \"020000000001\"\nssid = \"lab\"\nrates = \"82848b96\"\ndraw = 0\n";

static LONGS: &[Long] = &[
    // code of 16385 slots is refused
    (
        (SLOT, 16385, b"", 0, 7),
        &["apd", "verify", "assoc", "long"],
        (
            1,
            All(b"fault 3 at 0\n"),
            Start(b"apd: slot 0: the code is too long; "),
        ),
    ),
    // all digits of too long code are read
    (
        (SLOT, 20000, b"", 0, BLOCK),
        VERIFY,
        (1, All(b"fault 3 at 0\n"), ANY),
    ),
    (
        (SLOT, 20000, b"b7", 0, BLOCK),
        VERIFY,
        (1, All(b"fault 1 at 0\n"), ANY),
    ),
    (
        (SLOT, 20000, b"b7 g", 0, BLOCK),
        VERIFY,
        (
            2,
            All(b""),
            Start(b"apd: long: line 20001: `g` is no hex digit"),
        ),
    ),
    (
        (SLOT, 20000, b"b", 0, BLOCK),
        VERIFY,
        (
            2,
            All(b""),
            All(b"apd: long: an odd number of hex digits\n"),
        ),
    ),
    // white space is no code
    (
        (b"\n\t \r\n", 1, b"", 70000, BLOCK),
        VERIFY,
        (1, All(b"fault 2 at 0\n"), ANY),
    ),
    // files of each kind may come in parts
    (
        (TEXT, 1, b"", 0, 7),
        &["apd", "asm", "long"],
        (0, All(CODE), All(b"")),
    ),
    (
        (CODE, 1, b"", 0, 7),
        &["apd", "disasm", "long"],
        (0, All(TEXT), All(b"")),
    ),
    (
        (CERTIFICATE, 1, b"", 0, 7),
        &["apd", "check", "data", "one.hex", "long", "--work", "160"],
        (0, ANY, ANY),
    ),
    (
        (CERTIFICATE, 1, b"", 0, 7),
        &["apd", "check", "data", "one.hex", "long", "--work", "159"],
        (1, All(b"certificate 36\n"), ANY),
    ),
    (
        (b"bssid = \"0200000000\"\n", 1, b"", 0, 7),
        &["apd", "verify", "data", "one.hex", "--config", "long"],
        (
            2,
            All(b""),
            All(b"apd: long: line 1: `bssid` must be 12 hex digits\n"),
        ),
    ),
    (
        (b"frme 00", 1, b"", 0, 7),
        &["apd", "test", "long"],
        (
            2,
            All(b""),
            All(b"apd: long:1: unknown word `frme` (did you mean `frame`?)\n"),
        ),
    ),
    // without a clock there are no figures
    (
        (CAPTURE, 1, b"", 0, 7),
        &[
            "apd",
            "eval",
            "assoc",
            "refuses.hex",
            "long",
            "--config",
            "lab.toml",
            "--repeat",
            "1000",
        ],
        (
            0,
            All(
                b"packet  station            verdict       steps\n\
                2       02:00:00:00:00:0a  refuse 37     2\n\
                judged 1 of 6 packets: admit 0, refuse 1; steps at most 2 of budget 2\n\
                not judged: 5 no association request\n\
                repeated 1000 times: no clock tells how long a run takes\n",
            ),
            All(b""),
        ),
    ),
    (
        (CAPTURE, 1, b"", 200, 7),
        &[
            "apd", "eval", "data", "one.hex", "long", "--config", "lab.toml", "--repeat", "2",
        ],
        (
            2,
            All(
                b"packet  station            verdict       steps\n\
                3       02:00:00:00:00:0a  drop          2\n\
                judged 1 of 3 packets: pass 0 (0 marked), drop 1; steps at most 2 of budget 2\n\
                not judged: 2 not data\n\
                repeated 2 times: no clock tells how long a run takes\n",
            ),
            All(b"apd: long: the file is cut after 3 records; what is before that was judged\n"),
        ),
    ),
    // a file that is not written is a fault
    (
        (TEXT, 1, b"", 0, 7),
        &["apd", "asm", "long", "-o", "other"],
        (
            2,
            All(b""),
            All(b"apd: cannot write other: it is not allowed\n"),
        ),
    ),
    // a script is run by threads alone
    (
        (b"", 0, b"", 0, 7),
        &["apd", "run", "lab.toml", "lab.script"],
        (2, All(b""), All(b"apd: a script is run by threads alone\n")),
    ),
];

#[test]
fn files_are_read_to_their_end(rt: HostRuntime) {
    for row in LONGS {
        reads(&rt, rt.alloc(), row);
    }
}

static GREATEST: &[Long] = &[
    // code of any length is read
    (
        (CODE, 1, b"", 16777217, BLOCK),
        VERIFY,
        (0, All(b"accepted budget 2\n"), ANY),
    ),
    // texts of 16 mebibytes are read, and no longer ones
    (
        (TEXT, 1, b"", 16777216, BLOCK),
        &["apd", "asm", "long"],
        (0, All(CODE), All(b"")),
    ),
    (
        (TEXT, 1, b"", 16777217, BLOCK),
        &["apd", "asm", "long"],
        (
            2,
            All(b""),
            All(b"apd: cannot read long: it has more than 16777216 bytes\n"),
        ),
    ),
    // configurations of a mebibyte are read, and no longer ones
    (
        (CONFIG, 1, b"", 1048576, BLOCK),
        &["apd", "verify", "data", "one.hex", "--config", "long"],
        (0, All(b"accepted budget 2\n"), All(b"")),
    ),
    (
        (CONFIG, 1, b"", 1048577, BLOCK),
        &["apd", "verify", "data", "one.hex", "--config", "long"],
        (
            2,
            All(b""),
            All(b"apd: cannot read long: it has more than 1048576 bytes\n"),
        ),
    ),
];

#[test]
fn files_of_the_greatest_length_are_read(rt: HostRuntime) {
    for row in GREATEST {
        reads(&rt, rt.alloc(), row);
    }
}

/// A file that repeats one byte without end, and the number of its blocks read. Without a byte there is no memory for a
/// block.
#[derive(Drop)]
struct Endless {
    alloc: Global,
    byte: Option<u8>,
    blocks: u32,
}

impl Files for Endless {
    fn open(&mut self, _path: &str) -> Result<(), FileFault> {
        Ok(())
    }

    fn next_block(&mut self) -> Result<Vec<u8>, FileFault> {
        self.blocks = self.blocks.saturating_add(1);
        let Some(byte) = self.byte else {
            return Err(FileFault::NoMemory);
        };
        match [byte].repeat(self.alloc, BLOCK) {
            Ok(block) => return Ok(block),
            Err(_) => return Err(FileFault::NoMemory),
        }
    }
}

/// A byte, how many blocks are read, a command's words, and what is wanted.
type Read = (
    Option<u8>,
    u32,
    &'static [&'static str],
    Wanted<'static, 'static>,
);

/// Fails if a command reads more or less of such a file, or tells anything else.
fn ends(rt: &impl Abort, alloc: Global, row: &Read) {
    let (byte, blocks, words, wanted) = *row;
    let mut files = Endless {
        alloc,
        byte,
        blocks: 0,
    };
    does(rt, alloc, &mut files, words, wanted);
    same(rt, files.blocks, blocks, "blocks");
}

static ENDLESS: &[Read] = &[
    // a command ends at the first byte that is no digit
    (
        Some(0),
        1,
        &["apd", "verify", "data", "zero"],
        (
            2,
            All(b""),
            Start(b"apd: zero: line 1: `\\x00` is no hex digit"),
        ),
    ),
    // it ends past the longest text
    (
        Some(b' '),
        257,
        &["apd", "asm", "text"],
        (
            2,
            All(b""),
            All(b"apd: cannot read text: it has more than 16777216 bytes\n"),
        ),
    ),
    // lack of memory is told
    (
        None,
        1,
        &["apd", "verify", "data", "one.hex"],
        (3, All(b""), All(b"apd: out of memory\n")),
    ),
    // without words it tells how it is used
    (
        None,
        0,
        &[],
        (2, All(b""), Start(b"A programmable 802.11 access point")),
    ),
];

#[test]
fn a_file_without_end_is_read_as_far_as_it_matters(rt: HostRuntime) {
    for row in ENDLESS {
        ends(&rt, rt.alloc(), row);
    }
}

/// The result of `verify` if the output takes at most `room` bytes.
fn verified_in(alloc: Global, room: usize) -> Told {
    let mut out = Narrow::new(alloc, room, ErrorKind::StorageFull);
    let mut err = Vec::new(alloc);
    let words = ["apd", "verify", "data", "one.hex"];
    let mut files = folder_of(alloc, FILES, ("", b""), 7);
    let status = apd_main(alloc, &words, &mut files, &mut out, &mut err);
    drop(files);
    let out = out.taken;
    Told { status, out, err }
}

#[test]
fn leaves_a_beginning_where_a_write_fails(rt: HostRuntime) {
    let alloc = rt.alloc();
    let line = b"accepted budget 2\n".as_slice();
    let why = b"apd: cannot write: no storage space\n".as_slice();
    for room in 0..20usize {
        let told = verified_in(alloc, room);
        let begun = line.get(..room).unwrap_or(line);
        let (status, err) = if room < 18 {
            (2, why)
        } else {
            (0, b"".as_slice())
        };
        tells(&rt, &told, (status, All(begun), All(err)), "a room");
        drop(told);
    }
}
