//! What the outputs of an event count.

ghost use Rattle.std.specs.Prelude.{◌≡◌, count_by};
ghost use Rattle.ap_books.specs.Counts.{is_send, is_up, is_note};

use ap_model::Out;

pub(crate) fn sent_in(outs: &[Out]) -> usize
    ensures { result ≡ count_by is_send outs.now }
{
    outs.iter()
        .filter(|out| matches!(out, Out::Send(_)))
        .count()
}

pub(crate) fn up_in(outs: &[Out]) -> usize
    ensures { result ≡ count_by is_up outs.now }
{
    outs.iter().filter(|out| matches!(out, Out::Up(_))).count()
}

pub(crate) fn notes_in(outs: &[Out]) -> usize
    ensures { result ≡ count_by is_note outs.now }
{
    outs.iter()
        .filter(|out| matches!(out, Out::Note(_)))
        .count()
}
