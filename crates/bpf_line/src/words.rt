//! The words of a line.

ghost use Rattle.std.specs.Prelude.{◌≡◌, ◌<◌, ◌≤◌, ℕ, List, [], ◌∷◌, ◌++◌, length, map, take, IfSome, IfNone};
ghost use Rattle.std.specs.List.{position_or_len};
ghost use Rattle.bpf_line.specs.Words.{words, ends_word, piece_len};
ghost use Rattle.bpf_line.specs.Pieces.{Begins};

/// The first piece of a text, and the rest.
pub(crate) enum Piece<'a> {
    /// No more words: the end, or a comment.
    End,
    Space(&'a str),
    Word(&'a str, &'a str),
}

fn word_len(text: &[u8]) -> usize
    ensures is { result ≡ position_or_len ends_word text.now }
{
    let end = text
        .iter()
        .position(|byte| matches!(*byte, b' ' | b',' | b'#'));
    end.unwrap_or(text.len())
}

fn piece_len(text: &[u8]) -> usize
    requires some { 0 < length text.now }
    ensures is { result ≡ piece_len text.now }
{
    if text[0] == b' ' || text[0] == b',' {
        1
    } else {
        word_len(text)
    }
}

pub(crate) fn first_piece(text: &str) -> Piece<'_>
    ensures begins { Begins text.now result }
{
    let bytes = text.as_bytes();
    if bytes.is_empty() || bytes[0] == b'#' {
        return Piece::End;
    }
    let space = bytes[0] == b' ';
    let (piece, rest) = text.split_at(piece_len(bytes));
    if space {
        Piece::Space(rest)
    } else {
        Piece::Word(piece, rest)
    }
}

/// Writes the words of a line to `cut` in order, and returns how many there are; `None` if more than six.
pub(crate) fn cut_words<'a>(line: &'a str, cut: &mut [&'a str; 6]) -> Option<usize>
    ensures few { IfSome result
        (λ count. (count ≤ 6) × (words line.now ≡ map (λ w. w.now) (take count cut.new))) }
    ensures six { length cut.new ≡ 6 }
    ensures many { IfNone result (7 ≤ length (words line.now)) }
{
    let mut count = 0;
    let mut rest = line;
    loop {
        match first_piece(rest) {
            Piece::End => return Some(count),
            Piece::Space(after) => rest = after,
            Piece::Word(word, after) => {
                if count == 6 {
                    return None;
                }
                cut[count] = word;
                count += 1;
                rest = after;
            }
        }
    }
}
