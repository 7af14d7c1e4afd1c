//! The books of a shard with two holders of shares.

ghost use Rattle.std.specs.Prelude.{◌≡◌};
ghost use Rattle.ap_books.specs.Naming.{AreNamed, AreInParts};

use crate::tests::same::same;
use ap_books::{Blanks, Ledgers, ShardBooks, Totals};
use ap_model::{Octets, Out};
use std::alloc::Global;
use std::marker::Brand;
use std::process::Abort;

/// What the books of shard 3 have counted after one holder counts these outputs, and the other the same with a drop,
/// and then an event without outputs.
fn counted<B: Ledgers>(blanks: Blanks, outs: &[Out]) -> Totals
    requires named { AreNamed (B.name_of 3) blanks }
    requires parts { AreInParts B.shares blanks }
    requires two { B.shares ≡ 2 }
{
    let (mut books, mut one) = ShardBooks::<B, 3>::open(blanks);
    let mut other = one.split_off(1);
    books.count(&mut one, outs, false);
    books.count(&mut other, outs, true);
    books.count(&mut other, &[], false);
    one.merge(other);
    books.read(&mut one)
}

/// The same, for new ledgers.
fn counted_by_two(blanks: Blanks, outs: &[Out]) -> Totals
    requires { AreInParts 2 blanks }
{
    counted::<Brand>(blanks, outs)
}

/// A note, a frame to send, and another note.
fn outs(rt: &impl Abort, alloc: Global) -> Vec<Out> {
    let frame = Octets::new(Vec::new(alloc));
    vec![in alloc; Out::Note(50), Out::Send(frame), Out::Note(56)].expect(rt, "memory")
}

#[test]
fn shares_and_books_count_alike(rt: HostRuntime) {
    let outs = outs(&rt, rt.alloc());
    let totals = counted_by_two(Blanks::new(2), &outs);
    let wanted = Totals {
        events: 3,
        sent: 2,
        up: 0,
        dropped: 1,
        notes: 4,
    };
    same(&rt, totals, wanted, "totals");
    let both = totals.and(Totals::new()).and(totals);
    same(&rt, (both.events, both.notes), (6, 8), "totals of both");
}
