//! How many bytes are known to follow labels.

ghost use Rattle.std.specs.Prelude.{◌≡◌, [], None, Some, OnOk, OnErr, IfOk};
ghost use Rattle.bpf_absval.specs.Rooms.{find_room, raised, rooms_without};
ghost use Rattle.bpf_absval.specs.Leaves.{rooms_of};

use crate::tree::Tree;
use std::alloc::{AllocError, Global};
use std::marker::Model;

/// A room: at least `size` bytes of the frame follow the position that the label names.
#[derive(Clone, Copy, Debug, PartialEq, Eq)]
pub struct Room {
    pub label: u16,
    /// 0 to 2400 bytes.
    pub size: u16,
}

/// The bytes known to follow labels: at most one room per label, in the order of the labels. Copies share the parts
/// that neither has changed since.
#[derive(Drop)]
pub struct Rooms {
    alloc: Global,
    /// The rooms of all labels but the newest.
    tree: Tree,
    /// The room of the last label, which changes most often.
    newest: Option<Room>,
}

impl Model for Rooms {
    ghost use Rattle.std.specs.Prelude.{List};
    ghost use Rattle.bpf_absval.specs.declared.room.Room.{Room};

    ghost Value = { List Room };

    ghost use Rattle.bpf_absval.specs.Leaves.{rooms_of, with_newest, IsApart};

    ghost view = { λ a. with_newest a.newest (rooms_of a.tree) };

    ghost invariant = { λ a. IsApart a.newest (rooms_of a.tree) };
}

impl Clone for Rooms {
    ghost is_clone = { λ a b. b ≡ a };

    fn clone(&self) -> Result<Rooms, AllocError> {
        let tree = self.tree.clone()?;
        Ok(Rooms {
            alloc: self.alloc,
            tree,
            newest: self.newest,
        })
    }
}

impl Rooms {
    /// Nothing is known of any label. It doesn't allocate.
    pub fn new(alloc: Global) -> Rooms
        ensures { result ≡ [] }
    {
        Rooms {
            alloc,
            tree: Tree::Empty,
            newest: None,
        }
    }

    /// All rooms as one tree.
    fn gathered(&self) -> Result<Tree, AllocError>
        ensures { IfOk result (λ tree. rooms_of tree ≡ self.now) }
    {
        match self.newest {
            None => {
                let tree = self.tree.clone()?;
                Ok(tree)
            }
            Some(room) => {
                let tree = self.tree.with_room(self.alloc, room.label, room.size)?;
                Ok(tree)
            }
        }
    }

    /// All rooms, in the order of their labels.
    pub fn to_vec(&self) -> Result<Vec<Room>, AllocError>
        ensures { IfOk result (λ rooms. rooms.items ≡ self.now) }
    {
        let tree = self.gathered()?;
        let mut rooms = Vec::new(self.alloc);
        tree.list(&mut rooms)?;
        Ok(rooms)
    }

    /// How many bytes are known to follow the label's position.
    pub fn find(&self, label: u16) -> Option<u16>
        ensures { result ≡ find_room self.now label }
    {
        match self.newest {
            None => self.tree.find(label),
            Some(room) => {
                if room.label == label {
                    return Some(room.size);
                }
                self.tree.find(label)
            }
        }
    }

    /// Records that at least `size` bytes follow the label's position. If allocation fails, the rooms are unchanged.
    pub fn raise(&mut self, label: u16, size: u16) -> Result<(), AllocError>
        ensures ok { OnOk result (self.new ≡ raised self.old label size) }
        ensures err { OnErr result (self.new ≡ self.old) }
    {
        match self.find(label) {
            None => self.put(label, size),
            Some(known) => self.raise_known(label, size, known),
        }
    }

    /// Adds a room for a label that has none.
    fn put(&mut self, label: u16, size: u16) -> Result<(), AllocError>
        requires { find_room self.old label ≡ None }
        ensures ok { OnOk result (self.new ≡ raised self.old label size) }
        ensures err { OnErr result (self.new ≡ self.old) }
    {
        let tree = self.gathered()?;
        self.tree = tree;
        self.newest = Some(Room { label, size });
        Ok(())
    }

    /// Raises the label's room, of `known` bytes.
    fn raise_known(&mut self, label: u16, size: u16, known: u16) -> Result<(), AllocError>
        requires { find_room self.old label ≡ Some known }
        ensures ok { OnOk result (self.new ≡ raised self.old label size) }
        ensures err { OnErr result (self.new ≡ self.old) }
    {
        if let Some(room) = self.newest {
            if room.label == label {
                let size = room.size.max(size);
                self.newest = Some(Room { label, size });
                return Ok(());
            }
        }
        if size <= known {
            return Ok(());
        }
        let all = self.gathered()?;
        let tree = all.with_room(self.alloc, label, size)?;
        self.tree = tree;
        self.newest = None;
        Ok(())
    }

    /// Removes the label's room. If allocation fails, the rooms are unchanged.
    pub fn forget(&mut self, label: u16) -> Result<(), AllocError>
        ensures ok { OnOk result (self.new ≡ rooms_without label self.old) }
        ensures err { OnErr result (self.new ≡ self.old) }
    {
        match self.newest {
            None => {
                let tree = self.tree.forgotten(self.alloc, label)?;
                self.tree = tree;
                return Ok(());
            }
            Some(room) => {
                if room.label == label {
                    self.newest = None;
                    return Ok(());
                }
                let tree = self.tree.forgotten(self.alloc, label)?;
                self.tree = tree;
                return Ok(());
            }
        }
    }
}
