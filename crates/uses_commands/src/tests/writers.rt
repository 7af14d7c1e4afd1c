//! Writers that take little, and what they were given.

use crate::tests::same::same;
use apd_files::{Tape, Unwritten, write_whole};
use std::alloc::Global;
use std::io::{self, Error, ErrorKind, Write};

/// Takes at most `step` bytes a write and `room` in all, and then fails for the reason `full`. As a tape it opens,
/// unless there is a reason why it isn't made.
#[derive(Drop)]
pub struct Narrow {
    pub taken: Vec<u8>,
    pub step: usize,
    pub room: usize,
    pub interrupts: u8,
    pub full: ErrorKind,
    pub unmade: Option<ErrorKind>,
}

impl Narrow {
    /// A writer that takes `room` bytes, all at once.
    pub fn new(alloc: Global, room: usize, full: ErrorKind) -> Narrow {
        Narrow {
            taken: Vec::new(alloc),
            step: usize::MAX,
            room,
            interrupts: 0,
            full,
            unmade: None,
        }
    }
}

impl Write for Narrow {
    fn write(&mut self, buf: &[u8]) -> io::Result<usize> {
        if self.interrupts > 0 {
            self.interrupts -= 1;
            return Err(Error::from(ErrorKind::Interrupted));
        }
        let count = buf.len().min(self.step).min(self.room);
        if count == 0 {
            return Err(Error::from(self.full));
        }
        self.taken.extend_from_slice(&buf[..count])?;
        self.room -= count;
        Ok(count)
    }

    fn flush(&mut self) -> io::Result<()> {
        Ok(())
    }
}

impl Tape for Narrow {
    fn open(&mut self) -> Result<(), Unwritten> {
        match self.unmade {
            Some(kind) => Err(Unwritten(kind)),
            None => Ok(()),
        }
    }
}

#[test]
fn takes_all_or_a_beginning(rt: HostRuntime) {
    let full = ErrorKind::StorageFull;
    let text = b"accepted budget 2\n";
    for room in 0..20usize {
        let mut writer = Narrow::new(rt.alloc(), room, full);
        writer.step = 3;
        writer.interrupts = 2;
        let answer = write_whole(&mut writer, text).err();
        let wanted = if room < 18 {
            Some(Unwritten(full))
        } else {
            None
        };
        let begun = text.get(..room.min(18)).unwrap_or(b"");
        let found = (answer, writer.taken.as_slice());
        same(&rt, found, (wanted, begun), "the answer, and what is taken");
    }
}
