// Standard output, and the page of lines that are printed together.
ghost use Rattle.std.specs.Prelude.{◌≤◌, ◌+◌};

use findings::Counts;
use std::io::Stdout;
use text::put_bytes;

// A page that has more is printed when a line ends: there is room for a line behind it.
const FULL: usize = 0x4000;

// Lines that are not printed yet, and where the next one starts.
#[derive(Drop)]
pub(crate) struct Page {
    pub(crate) out: Stdout,
    pub(crate) bytes: [u8; 0x5000],
    pub(crate) at: usize,
    ghost line_start: { at ≤ 0x4000 },
}

impl Page {
    // Prints the first bytes. What cannot be written is left out.
    fn print(&self, end: usize) {
        let _ = self
            .out
            .write_all(self.bytes.get(..end).unwrap_or(&self.bytes));
    }

    // A line ends at a place.
    pub(crate) fn end_line(&mut self, end: usize) {
        if FULL < end {
            self.print(end);
            self.at = 0;
        } else {
            self.at = end;
        }
    }

    // Prints the lines, and both counts in the last.
    pub(crate) fn print_counts(&mut self, counts: Counts) {
        let a = put_number(&mut self.bytes, self.at, counts.errors);
        let b = put_bytes(&mut self.bytes, a, b" errors, ");
        let c = put_number(&mut self.bytes, b, counts.warnings);
        let end = put_bytes(&mut self.bytes, c, b" warnings\n");
        self.print(end);
    }
}

// Puts a number; the place after it.
fn put_number(out: &mut [u8], at: usize, n: usize) -> usize
    requires { at ≤ 0xffff }
    ensures { result ≤ at + 20 }
{
    put_bytes(out, at, itoa::Buffer::new().format(n).as_bytes())
}

// The last line of a document in which nothing is found, by itself.
pub(crate) fn print_no_findings(out: Stdout) {
    let _ = out.write_all(b"0 errors, 0 warnings\n");
}

// The line of a refusal by its number.
pub(crate) fn print_refusal(out: Stdout, number: u32, place: usize) {
    let _ = println!(out; "refused {number} at {place}");
}
