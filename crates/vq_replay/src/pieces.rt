//! Words that stand in many lines, each in a room of its own, so that one copy of a fixed size writes it.
//!
//! Source: this project's own.
ghost use Rattle.std.specs.Prelude.{◌≡◌, ◌≤◌, ◌+◌, ◌++◌, length, take};

/// The most bytes of such words.
pub(crate) const PIECE_ROOM: usize = 48;

/// Words in a room.
#[derive(Clone, Copy)]
pub(crate) struct Piece {
    pub(crate) bytes: [u8; PIECE_ROOM],
    pub(crate) len: usize,
}

/// Writes a word into a room from a place on. The result is the place behind it.
#[inline(always)]
pub(crate) fn put_word(room: &mut [u8], at: usize, word: &[u8]) -> usize
    requires { at + length word.now ≤ length room.old }
    ensures end { result ≡ at + length word.now }
    ensures written { take result room.new ≡ take at room.old ++ word.now }
{
    let end = at + word.len();
    room[at..end].copy_from_slice(word);
    end
}

/// Writes the words of a piece into a room from a place on. The result is the place behind them.
#[inline(always)]
pub(crate) fn put_piece(room: &mut [u8], at: usize, piece: &Piece) -> usize
    requires room { at + 48 ≤ length room.old }
    requires short { piece.now.len ≤ 48 }
    ensures end { result ≡ at + piece.now.len }
    ensures written { take result room.new ≡ take at room.old ++ take piece.now.len piece.now.bytes }
{
    room[at..at + PIECE_ROOM].copy_from_slice(&piece.bytes);
    at + piece.len
}
