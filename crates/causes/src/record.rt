// The records of data/vectors.bin.
use std::fs::File;
use std::io::Read;

// Where a record's document ends in the space, and the steps behind it.
#[derive(Clone, Copy, Default)]
pub(crate) struct Record {
    doc: usize,
    end: usize,
}

impl Record {
    // The document and the steps.
    pub(crate) fn parts(self, space: &[u8]) -> Option<(&[u8], &[u8])> {
        space.get(..self.end)?.split_at_checked(self.doc)
    }
}

// The number that the next four bytes make, the least significant first; none at the file's end. The programs share no library of their own,
// so `replay` has this too.
fn next_word(file: &mut File) -> Option<u32> {
    let mut word = [0u8; 4];
    file.read_exact(&mut word).ok()?;
    Some(u32::from_le_bytes(word))
}

// Reads the next record to the front of the space; none where the file or the space ends before.
pub(crate) fn read_record(file: &mut File, space: &mut [u8]) -> Option<Record> {
    let doc = next_word(file)? as usize;
    file.read_exact(space.get_mut(..doc)?).ok()?;
    let count = next_word(file)? as usize;
    let end = doc + 4 * count;
    file.read_exact(space.get_mut(doc..end)?).ok()?;
    Some(Record { doc, end })
}
