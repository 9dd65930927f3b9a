// The files that are replayed: each is a row of records, and each record a document and what is due for it.
use std::fmt;
use std::fmt::Write;
use std::fs::File;
use std::io::{Read, Stdout};
use std::ops::ControlFlow;

// Standard output, which gets each piece of a text by itself: one that cannot be written is left out.
// Texts have their line's end in them: by `writeln!` it would be a piece of its own.
#[derive(Clone, Copy)]
pub(crate) struct Pieces(pub(crate) Stdout);

impl fmt::Write for Pieces {
    fn write_str(&mut self, piece: &str) -> fmt::Result {
        let _ = self.0.write_all(piece.as_bytes());
        Ok(())
    }
}

// The records of one kind, and how many were answered how.
pub(crate) trait Records {
    // Judges a document by what follows it in the file; whether the next record is read.
    fn judge(&mut self, file: &mut File, out: Stdout, doc: &[u8]) -> ControlFlow<()>;

    // The file or the space ends in a record; whether the next one is read.
    fn cut_off(&mut self) -> ControlFlow<()>;
}

// The next byte; none at the file's end.
pub(crate) fn next_byte(file: &mut File) -> Option<u8> {
    let mut byte = [0u8; 1];
    file.read_exact(&mut byte).ok()?;
    Some(byte[0])
}

// The number that the next four bytes make, the least significant first; none at the file's end.
pub(crate) fn next_word(file: &mut File) -> Option<u32> {
    let mut word = [0u8; 4];
    file.read_exact(&mut word).ok()?;
    Some(u32::from_le_bytes(word))
}

// So many bytes at the front of the space; none where the file or the space ends before.
pub(crate) fn read_front<'a>(file: &mut File, space: &'a mut [u8], len: usize) -> Option<&'a [u8]> {
    let front = space.get_mut(..len)?;
    file.read_exact(front).ok()?;
    Some(front)
}

// Replays the records and prints how many were answered how. A file has fewer records than the loop has turns.
pub(crate) fn replay<T: Records + fmt::Display + Drop>(
    mut file: File,
    out: Stdout,
    space: &mut [u8],
    mut records: T,
) {
    for _ in 0..100_000 {
        let Some(len) = next_word(&mut file) else {
            break;
        };
        let turn = match read_front(&mut file, space, len as usize) {
            Some(doc) => records.judge(&mut file, out, doc),
            None => records.cut_off(),
        };
        if turn.is_break() {
            break;
        }
    }
    let _ = write!(Pieces(out), "{records}");
}
