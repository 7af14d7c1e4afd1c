//! The packets of a classic capture file, one after another.

ghost use Rattle.std.specs.Prelude.{◌≡◌, ◌≤◌, drop, length, IfOk, IfErr};
ghost use Rattle.std.specs.Option.{option_map};
ghost use Rattle.capture.specs.Packets.{seen_of, RefusesRecord};
ghost use Rattle.capture.specs.Walks.{records_from, IsNext};
ghost use Rattle.capture.specs.Counting.{AreRecords};
ghost use Rattle.capture.specs.Walking.{records_left};

use crate::fault::CaptureFault;
use crate::form::{Form, read_form};
use crate::packet::{Packet, first_packet};

/// The records that are still to come.
#[derive(Clone, Copy, Debug, PartialEq, Eq)]
pub(crate) struct RecordWalk<'a> {
    form: Form,
    rest: &'a [u8],
    /// No more records than this are left.
    most: usize,
}

impl<'a> RecordWalk<'a> {
    /// All records of a file whose header says this.
    pub(crate) fn new(form: Form, file: &'a [u8]) -> RecordWalk<'a>
        requires long { 24 ≤ length file.now }
        ensures packets { records_left result
            ≡ records_from (length file.entry.now) form (drop 24 file.entry.now) }
        ensures enough { length result.rest.now ≤ result.most }
    {
        RecordWalk {
            form,
            rest: file.split_at(24).1,
            most: file.len(),
        }
    }

    /// The packet of the next record. None at the end, or if the record is cut.
    pub(crate) fn next(&mut self) -> Option<Packet<'a>>
        requires enough { length self.old.rest.now ≤ self.old.most }
        ensures next { IsNext (records_left self.old) (option_map seen_of result)
            (records_left self.new) }
        ensures enough { length self.new.rest.now ≤ self.new.most }
    {
        let (packet, after) = first_packet(self.form, self.rest)?;
        self.rest = after;
        self.most -= 1;
        Some(packet)
    }
}

/// How many packets a classic capture file has.
pub(crate) fn count_records(file: &[u8]) -> Result<usize, CaptureFault>
    ensures packets { IfOk result (AreRecords file.now) }
    ensures fault { IfErr result (RefusesRecord file.now) }
{
    let form = read_form(file)?;
    let mut count = 0;
    let mut rest = file.split_at(24).1;
    while !rest.is_empty() {
        let Some((_packet, after)) = first_packet(form, rest) else {
            return Err(CaptureFault::CutRecord(count as u64));
        };
        count += 1;
        rest = after;
    }
    Ok(count)
}
