//! Rooms as a binary tree, in the order of their labels. Copies share the parts that none has changed since.
//!
//! A fork splits its span of labels in the middle, and spans come from halving the span of all labels. So a path from
//! the root has at most 16 forks, in whatever order labels were added. Each side of a fork has a room, so few rooms
//! need few forks.

ghost use Rattle.std.specs.Prelude.{◌≡◌, ◌+◌, ◌<◌, ◌≤◌, List, [], ◌∷◌, ◌++◌, OnOk, IfOk, length, ◌==◌};
ghost use Rattle.bpf_absval.specs.Rooms.{find_room, raised, rooms_without, Between};
ghost use Rattle.bpf_absval.specs.Leaves.{rooms_of, IsParted};

use crate::room::Room;
use std::alloc::{AllocError, Global};
use std::marker::Model;
use std::rc::Rc;

/// The labels from `low` to `high`.
#[derive(Clone, Copy)]
pub struct Span {
    pub low: u16,
    pub high: u16,
}

/// Rooms of increasing labels.
#[cycle(rooms)]
#[derive(Drop)]
pub enum Tree {
    /// None.
    Empty,
    /// One.
    One(Room),
    /// Those of two trees, in order.
    Fork(Rc<Pair>),
}

/// Two trees with at least one room each.
#[cycle(rooms)]
#[derive(Drop)]
pub struct Pair {
    /// It contains all labels.
    span: Span,
    /// Labels on the left are below it, those on the right are not.
    split: u16,
    left: Tree,
    right: Tree,
}

impl Model for Pair {
    ghost use Rattle.std.specs.Prelude.{List, length, ◌++◌};
    ghost use Rattle.bpf_absval.specs.declared.room.Room.{Room};

    ghost Value = { List Room };

    ghost use Rattle.bpf_absval.specs.Leaves.{rooms_of, IsFork};

    ghost view = { λ a. rooms_of a.left ++ rooms_of a.right };

    ghost invariant = { λ a. IsFork a.span.low a.split a.span.high (rooms_of a.left) (rooms_of a.right) };

    ghost size = { length };

    ghost use Rattle.bpf_absval.specs.Fall.{fall};

    ghost size_decreases = { λ a h. fall a.span.low a.split a.span.high a.left a.right h };
}

impl Clone for Tree {
    ghost use Rattle.bpf_absval.specs.Leaves.{rooms_of};

    ghost is_clone = { λ a b. rooms_of b ≡ rooms_of a };

    fn clone(&self) -> Result<Tree, AllocError> {
        match self {
            Tree::Empty => Ok(Tree::Empty),
            Tree::One(room) => Ok(Tree::One(*room)),
            Tree::Fork(pair) => {
                let pair = pair.clone()?;
                Ok(Tree::Fork(pair))
            }
        }
    }
}

/// The smallest span that halving yields with both labels, and the first label of its upper half.
fn halved(span: Span, low: u16, high: u16) -> (Span, u16)
    requires begins { span.low ≤ low }
    requires apart { low < high }
    requires ends { high ≤ span.high }
    ensures begins { result.0.low ≤ low }
    ensures above { low < result.1 }
    ensures upto { result.1 ≤ high }
    ensures ends { high ≤ result.0.high }
{
    let split = span.low + (span.high - span.low) / 2 + 1;
    if high < split {
        let lower = Span {
            low: span.low,
            high: split - 1,
        };
        return halved(lower, low, high);
    }
    if split <= low {
        let upper = Span {
            low: split,
            high: span.high,
        };
        return halved(upper, low, high);
    }
    (span, split)
}

impl Tree {
    fn is_empty(&self) -> bool
        ensures { result ≡ (length (rooms_of self.now) == 0) }
    {
        match self {
            Tree::Empty => true,
            Tree::One(_) => false,
            Tree::Fork(pair) => {
                let pair: &Pair = pair;
                let _left = &pair.left;
                false
            }
        }
    }

    /// The rooms of two trees, separated by `split`, as one tree.
    fn joined(
        alloc: Global,
        span: Span,
        split: u16,
        left: Tree,
        right: Tree,
    ) -> Result<Tree, AllocError>
        requires { IsParted span.low split span.high (rooms_of left) (rooms_of right) }
        ensures { IfOk result (λ tree. rooms_of tree ≡ rooms_of left ++ rooms_of right) }
    {
        if left.is_empty() {
            return Ok(right);
        }
        if right.is_empty() {
            return Ok(left);
        }
        let pair = Rc::new(
            alloc,
            Pair {
                span,
                split,
                left,
                right,
            },
        )?;
        Ok(Tree::Fork(pair))
    }

    /// The rooms of two trees, whose spans follow each other, as one tree.
    fn side_by_side(
        alloc: Global,
        left: Tree,
        before: Span,
        right: Tree,
        behind: Span,
    ) -> Result<Tree, AllocError>
        requires left { Between before.low (before.high + 1) (rooms_of left) }
        requires right { Between behind.low (behind.high + 1) (rooms_of right) }
        requires some_before { before.low ≤ before.high }
        requires apart { before.high < behind.low }
        requires some_behind { behind.low ≤ behind.high }
        ensures { IfOk result (λ tree. rooms_of tree ≡ rooms_of left ++ rooms_of right) }
    {
        let all = Span {
            low: 0,
            high: u16::MAX,
        };
        let (span, middle) = halved(all, before.low, behind.high);
        // Both spans come from halving, so the middle lies between them.
        let split = middle.max(before.high + 1).min(behind.low);
        let tree = Tree::joined(alloc, span, split, left, right)?;
        Ok(tree)
    }

    /// Adds a room before all others.
    fn with_first(&self, alloc: Global, span: Span, room: Room) -> Result<Tree, AllocError>
        requires within { Between span.low (span.high + 1) (rooms_of self.now) }
        requires some { span.low ≤ span.high }
        requires before { room.label < span.low }
        ensures { IfOk result (λ tree. rooms_of tree ≡ room ∷ rooms_of self.now) }
    {
        let here = Span {
            low: room.label,
            high: room.label,
        };
        let others = self.clone()?;
        let tree = Tree::side_by_side(alloc, Tree::One(room), here, others, span)?;
        Ok(tree)
    }

    /// Adds a room after all others.
    fn with_last(&self, alloc: Global, span: Span, room: Room) -> Result<Tree, AllocError>
        requires within { Between span.low (span.high + 1) (rooms_of self.now) }
        requires some { span.low ≤ span.high }
        requires behind { span.high < room.label }
        ensures { IfOk result (λ tree. rooms_of tree ≡ rooms_of self.now ++ room ∷ []) }
    {
        let here = Span {
            low: room.label,
            high: room.label,
        };
        let others = self.clone()?;
        let tree = Tree::side_by_side(alloc, others, span, Tree::One(room), here)?;
        Ok(tree)
    }

    /// How many bytes are known to follow the label's position.
    pub fn find(&self, label: u16) -> Option<u16>
        ensures { result ≡ find_room (rooms_of self.now) label }
    {
        match self {
            Tree::Empty => None,
            Tree::One(room) => {
                if room.label == label {
                    return Some(room.size);
                }
                None
            }
            Tree::Fork(pair) => {
                let pair: &Pair = pair;
                if label < pair.split {
                    return pair.left.find(label);
                }
                pair.right.find(label)
            }
        }
    }

    /// Records that at least `size` bytes follow the label's position; all parts off the path to the label are shared.
    pub fn with_room(&self, alloc: Global, label: u16, size: u16) -> Result<Tree, AllocError>
        ensures { IfOk result
            (λ tree. rooms_of tree ≡ raised (rooms_of self.now) label size) }
    {
        match self {
            Tree::Empty => Ok(Tree::One(Room { label, size })),
            Tree::One(room) => self.with_room_beside(alloc, *room, label, size),
            Tree::Fork(pair) => {
                let pair: &Pair = pair;
                if label < pair.span.low {
                    return self.with_first(alloc, pair.span, Room { label, size });
                }
                if pair.span.high < label {
                    return self.with_last(alloc, pair.span, Room { label, size });
                }
                if label < pair.split {
                    let left = pair.left.with_room(alloc, label, size)?;
                    let right = pair.right.clone()?;
                    let tree = Tree::joined(alloc, pair.span, pair.split, left, right)?;
                    return Ok(tree);
                }
                let right = pair.right.with_room(alloc, label, size)?;
                let left = pair.left.clone()?;
                let tree = Tree::joined(alloc, pair.span, pair.split, left, right)?;
                return Ok(tree);
            }
        }
    }

    /// The same for a tree that has one room.
    fn with_room_beside(
        &self,
        alloc: Global,
        room: Room,
        label: u16,
        size: u16,
    ) -> Result<Tree, AllocError>
        requires one { rooms_of self.now ≡ room ∷ [] }
        ensures { IfOk result
            (λ tree. rooms_of tree ≡ raised (rooms_of self.now) label size) }
    {
        if room.label == label {
            let size = room.size.max(size);
            return Ok(Tree::One(Room { label, size }));
        }
        let span = Span {
            low: room.label,
            high: room.label,
        };
        if label < room.label {
            return self.with_first(alloc, span, Room { label, size });
        }
        self.with_last(alloc, span, Room { label, size })
    }

    /// Removes the label's room; all parts off the path to it are shared.
    pub fn without_room(&self, alloc: Global, label: u16) -> Result<Tree, AllocError>
        ensures { IfOk result
            (λ tree. rooms_of tree ≡ rooms_without label (rooms_of self.now)) }
    {
        match self {
            Tree::Empty => Ok(Tree::Empty),
            Tree::One(room) => {
                if room.label == label {
                    return Ok(Tree::Empty);
                }
                Ok(Tree::One(*room))
            }
            Tree::Fork(pair) => {
                let pair: &Pair = pair;
                if label < pair.split {
                    let left = pair.left.without_room(alloc, label)?;
                    let right = pair.right.clone()?;
                    let tree = Tree::joined(alloc, pair.span, pair.split, left, right)?;
                    return Ok(tree);
                }
                let right = pair.right.without_room(alloc, label)?;
                let left = pair.left.clone()?;
                let tree = Tree::joined(alloc, pair.span, pair.split, left, right)?;
                return Ok(tree);
            }
        }
    }

    /// Removes the label's room; if it has none, all is shared.
    pub fn forgotten(&self, alloc: Global, label: u16) -> Result<Tree, AllocError>
        ensures { IfOk result
            (λ tree. rooms_of tree ≡ rooms_without label (rooms_of self.now)) }
    {
        if self.find(label).is_none() {
            let tree = self.clone()?;
            return Ok(tree);
        }
        let tree = self.without_room(alloc, label)?;
        Ok(tree)
    }

    /// Adds all rooms to a list.
    pub fn list(&self, rooms: &mut Vec<Room>) -> Result<(), AllocError>
        ensures { OnOk result (rooms.new.items ≡ rooms.old.items ++ rooms_of self.now) }
    {
        match self {
            Tree::Empty => Ok(()),
            Tree::One(room) => {
                rooms.push(*room)?;
                Ok(())
            }
            Tree::Fork(pair) => {
                let pair: &Pair = pair;
                pair.left.list(rooms)?;
                pair.right.list(rooms)?;
                Ok(())
            }
        }
    }
}
