//! Operators that submit, kick, store and read.

use crate::frames::{address, data, joining};
use crate::hands::Chief;
use crate::tally::{call_of, counts_of};
use ap_books::{Ledgers, Totals};
use ap_locked::Journals;
use ap_model::Event;
use std::alloc::{AllocError, Global};
use std::sync::Wait;
use std::sync::atomic::AtomicU64;
use std::sync::atomic::Ordering::SeqCst;

/// The number of data frames after which an operator does something else too.
const PAUSE: u64 = 64;

/// What one operator did.
#[derive(Clone, Copy)]
pub(crate) struct Diary {
    /// How many items it put into queues.
    pub put: u64,
    /// The outcome of the commands that it decided at once.
    pub acted: Totals,
    /// How often an allocation failed, or a map's word or sum was wrong.
    pub wrong: u64,
    /// The last sum that it took.
    sum: u64,
}

impl Diary {
    /// An operator that has done nothing.
    pub(crate) fn new() -> Diary {
        Diary {
            put: 0,
            acted: Totals::new(),
            wrong: 0,
            sum: 0,
        }
    }

    /// What two operators did together.
    pub(crate) fn and(self, other: Diary) -> Diary {
        Diary {
            put: self.put.wrapping_add(other.put),
            acted: self.acted.and(other.acted),
            wrong: self.wrong.wrapping_add(other.wrong),
            sum: 0,
        }
    }

    fn fails(&mut self) {
        self.wrong = self.wrong.wrapping_add(1);
    }
}

/// How many queue items an event makes: a tick makes one for each shard.
fn items_of(event: &Event) -> u64 {
    match event {
        Event::Tick(_) => 8,
        _ => 1,
    }
}

/// Puts an event, if it could be made.
fn put<B: Ledgers + Journals, R: Wait>(
    rt: &R,
    chief: &mut Chief<'_, B>,
    diary: &mut Diary,
    call: u64,
    event: Result<Event, AllocError>,
) {
    match event {
        Ok(event) => {
            let items = items_of(&event);
            chief.put(rt, call, event);
            diary.put = diary.put.wrapping_add(items);
        }
        Err(_) => diary.fails(),
    }
}

/// The operator's station that associates and is sent away repeatedly.
fn guest_of(operator: u8) -> [u8; 6] {
    address(operator.wrapping_add(100), operator)
}

/// Deauthenticates the guest at once.
fn kick<B: Ledgers + Journals, R: Wait>(
    rt: &R,
    alloc: Global,
    chief: &mut Chief<'_, B>,
    diary: &mut Diary,
) {
    let guest = guest_of(chief.number);
    match chief.kick(rt, alloc, guest, 1) {
        Ok(outs) => {
            let counts = counts_of(outs.as_slice(), false);
            diary.acted = diary.acted.and(counts);
        }
        Err(_) => diary.fails(),
    }
}

/// Stores a number in the operator's own word, reads it back, and takes a sum, which never decreases.
fn use_maps<B: Ledgers + Journals>(chief: &mut Chief<'_, B>, diary: &mut Diary, number: u64) {
    let word = u32::from(chief.number % 4).wrapping_add(2);
    let stored = chief.store(0, word, number);
    if !stored || chief.read(0, word) != Some(number) {
        diary.fails();
    }
    let sum = chief.sum(1, 0).unwrap_or(0);
    if sum < diary.sum {
        diary.fails();
    }
    diary.sum = sum;
}

/// The guest authenticates and associates, sends data, is sent away, and sends more; time passes; maps are used.
fn do_else<B: Ledgers + Journals, R: Wait>(
    rt: &R,
    alloc: Global,
    chief: &mut Chief<'_, B>,
    diary: &mut Diary,
    index: u64,
) {
    let guest = guest_of(chief.number);
    let call = call_of(index, 4);
    let number = (index % 4096) as u16;
    put(rt, chief, diary, call, joining(alloc, guest, 0));
    put(rt, chief, diary, call, joining(alloc, guest, 1));
    put(rt, chief, diary, call, data(alloc, guest, number));
    kick(rt, alloc, chief, diary);
    put(rt, chief, diary, call, data(alloc, guest, number));
    put(rt, chief, diary, call, Ok(Event::Tick(1)));
    use_maps(chief, diary, index);
}

/// The data with this index of an operator.
fn data_of(alloc: Global, operator: u8, index: u64) -> Result<Event, AllocError> {
    let station = address(operator, (index % 8) as u8);
    data(alloc, station, (index / 8 % 4096) as u16)
}

/// Submits `events` data frames, and does all else meanwhile. It then reports that it is done, and returns what it did.
pub(crate) fn operate_on<B: Ledgers + Journals, R: Wait>(
    rt: &R,
    alloc: Global,
    chief: &mut Chief<'_, B>,
    events: u64,
    operating: &AtomicU64,
) -> Diary {
    let mut diary = Diary::new();
    let operator = chief.number % 4;
    for index in 0..events {
        let event = data_of(alloc, operator, index);
        put(rt, chief, &mut diary, call_of(index, operator), event);
        if index % PAUSE == 0 {
            do_else(rt, alloc, chief, &mut diary, index);
        }
    }
    operating.fetch_sub(1, SeqCst);
    diary
}
