//! The program of each hook.

use bpf_regions::Hook;

/// The lines whose programs are in force, by hook.
#[derive(Clone, Copy)]
pub(crate) struct Programs {
    association: Option<u64>,
    addba: Option<u64>,
    data: Option<u64>,
}

impl Programs {
    /// No hook has a program.
    pub(crate) fn none() -> Programs {
        Programs {
            association: None,
            addba: None,
            data: None,
        }
    }

    /// The line whose program a hook has.
    pub(crate) fn at(&self, hook: Hook) -> Option<u64> {
        match hook {
            Hook::Association => self.association,
            Hook::Addba => self.addba,
            Hook::Data => self.data,
        }
    }

    /// Records that a hook has the program of a line, or none.
    pub(crate) fn put(&mut self, hook: Hook, line: Option<u64>) {
        match hook {
            Hook::Association => self.association = line,
            Hook::Addba => self.addba = line,
            Hook::Data => self.data = line,
        }
    }
}
