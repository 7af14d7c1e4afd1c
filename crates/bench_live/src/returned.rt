//! Reports on their way back to the thread that submitted their events.

use ap_live::Tagged;
use std::alloc::Global;
use std::mem;
use std::sync::{Mutex, Wait};

/// Lists of reports that workers hand back. The submitter frees them, and so the events, which it allocated.
#[derive(Drop)]
pub struct Returned {
    lists: Mutex<Vec<Vec<Tagged>>>,
}

impl Returned {
    /// Nothing was handed back.
    pub fn new(alloc: Global) -> Returned {
        Returned {
            lists: Mutex::new(Vec::new(alloc)),
        }
    }

    /// A worker hands back its list. If an allocation fails, the worker frees it.
    pub fn put<R: Wait>(&self, rt: &R, list: Vec<Tagged>) {
        let _ = self.lists.lock(rt).push(list);
    }

    /// The submitter frees what was handed back.
    pub fn free<R: Wait>(&self, rt: &R, alloc: Global) {
        let lists = mem::replace(&mut *self.lists.lock(rt), Vec::new(alloc));
        drop(lists);
    }
}
