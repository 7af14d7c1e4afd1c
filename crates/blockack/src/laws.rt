//! The law of the definitions that an agreement's contracts cite.
ghost use Rattle.std.specs.Prelude.{◌≡◌, ℕ, ◌<◌, ◌≤◌};
ghost use Rattle.blockack.specs.Window.{IsUnwrapped};
ghost use Rattle.blockack.specs.Calls.{HandsUpInOrder, HandsUpAllInOrder};
ghost use Rattle.blockack.specs.Same.{DataLeavesTheSame, RequestLeavesTheSame, EndLeavesTheSame};
ghost use Rattle.blockack.specs.Same.{HaveWindows, HaveScoreboards, DataReadsTheSame, RequestReadsTheSame};

/// What an agreement passes up (IEEE 802.11-2016, 10.24.7.6.1). Over any list of calls for data and
/// requests, this is exactly the taken items below the window that aren't `None`, each once, in
/// increasing order of their whole numbers. Once the agreement has ended, all taken items are below
/// the window. A sequence number means at most one whole number to a window, and exactly one to a
/// window that starts at 2048 or later. (To an earlier one it may mean a number below 0, which is old.)
///
/// No verdict on data moves a window: two windows that start at the same number and took the same
/// numbers still do after the same event, whatever their items. This holds for agreements by their
/// readings: each reading belongs to some window, its first number and bits belong to some
/// scoreboard, and two agreements that hold the same numbers still do after the same call.
pub fn window_law<F>()
    ensures going_on { HandsUpInOrder F }
    ensures ended { HandsUpAllInOrder F }
    ensures one_number { (start number n m : ℕ) → IsUnwrapped start number n → IsUnwrapped start number m →
        n ≡ m }
    ensures some_number { (start number : ℕ) → number < 4096 → 2048 ≤ start →
        ((n : ℕ) × IsUnwrapped start number n) }
    ensures at_data { DataLeavesTheSame F }
    ensures at_request { RequestLeavesTheSame F }
    ensures at_end { EndLeavesTheSame F }
    ensures windows { HaveWindows F }
    ensures scoreboards { HaveScoreboards }
    ensures read_at_data { DataReadsTheSame F }
    ensures read_at_request { RequestReadsTheSame F }
{}
