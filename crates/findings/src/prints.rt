// Prints: numbers made of bytes, so that most names and patterns that differ are told apart by a number.
ghost use Rattle.std.specs.Prelude.{◌≡◌, [], ◌∷◌, ◌*◌, ◌≤◌, length};
ghost use Rattle.std.proofs.lemmas.List.Edits.{sets};
ghost use Rattle.reading.specs.Skip.{text_at};
ghost use Rattle.reading.specs.Views.{span};
ghost use Rattle.typing.specs.Lanes.{print};
ghost use Rattle.findings.specs.Scene.{field};
ghost use Rattle.findings.specs.Prints.{print_at};
ghost use Rattle.findings.specs.Parts.{PrintPart, KeyPrint, PrintedRow};
ghost use Rattle.findings.specs.PairPromises.{Printed};
ghost use Rattle.findings.specs.Classes.{Tabled};

use crate::priority::rank;
use crate::rows::field;
use reading::text_at;
use typing::print_bytes;

// The bytes from one place to another, as far as there are any.
pub(crate) fn part(doc: &[u8], from: usize, to: usize) -> &[u8]
    ensures { result.now ≡ span doc.now from to }
{
    doc.get(from..to.min(doc.len())).unwrap_or(&[])
}

// The print of a part of the document after h.
pub(crate) fn print_part(doc: &[u8], from: usize, to: usize, h: u32) -> u32
    ensures { PrintPart doc.now from to h result }
{
    print_bytes(part(doc, from, to), h)
}

// The print of the name in a field of transition i.
fn print_name(doc: &[u8], rows: &[usize], i: u8, f: u8) -> u32
    ensures { result ≡ print 0 (text_at doc.now (field rows.now i f)) }
{
    print_bytes(text_at(doc, field(rows, i, f)), 0)
}

// The print of the pattern of transition i after h.
fn print_pattern(doc: &[u8], rows: &[usize], i: u8, h: u32) -> u32
    ensures { PrintPart doc.now (field rows.now i 2) (field rows.now i 3) h result }
{
    print_part(doc, field(rows, i, 2), field(rows, i, 3), h)
}

// Word f of the prints of transition i; 0 past the end.
pub(crate) fn print_word(prints: &[u32; 768], i: u8, f: u8) -> u32
    ensures { result ≡ print_at prints.now i f }
{
    let at = 3 * (i as usize) + f as usize;
    prints.get(at).copied().unwrap_or(0)
}

// Puts the three words of transition i.
fn write_print(prints: &mut [u32; 768], i: u8, state: u32, next: u32, key: u32)
    ensures { prints.new ≡ sets prints.old (3 * i) (state ∷ next ∷ key ∷ []) }
{
    let at = 3 * (i as usize);
    prints[at] = state;
    prints[at + 1] = next;
    prints[at + 2] = key;
}

// The key of transition i, by the print of its state.
fn key_of(doc: &[u8], rows: &[usize], i: u8, state: u32) -> u32
    ensures { KeyPrint doc.now rows.now i state result }
{
    let h = print_pattern(doc, rows, i, state);
    rank(doc, field(rows, i, 7), h)
}

// The prints of transition i: of its state, of the state it leads to, and its key.
fn fill_print(doc: &[u8], rows: &[usize], i: u8, prints: &mut [u32; 768])
    ensures { PrintedRow doc.now rows.now i prints.old prints.new }
{
    let state = print_name(doc, rows, i, 1);
    let next = print_name(doc, rows, i, 4);
    let key = key_of(doc, rows, i, state);
    write_print(prints, i, state, next, key);
}

// A table of what a function gives at each place below the count.
pub(crate) fn tabulate<F: Fn(u8) -> u32>(count: u8, of: F) -> [u32; 256]
    requires { F.IsAlwaysCallable of }
    ensures { Tabled (F.post of) count result }
{
    let mut table: [u32; 256] = [0; 256];
    for i in 0..count {
        table[i as usize] = of(i);
    }
    table
}

// The prints of each transition.
pub(crate) fn fill_prints(doc: &[u8], rows: &[usize], count: u8, prints: &mut [u32; 768])
    ensures { Printed doc.now rows.now count prints.new }
{
    for i in 0..count {
        fill_print(doc, rows, i, prints);
    }
}
