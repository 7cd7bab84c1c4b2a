// What a file of known size says: its records, its region words, and whether its spare bits are clear.
#![tactic(auto)]

ghost use Rattle.std.specs.Prelude.{◌≡◌, ◌+◌, eqb, length};
ghost use Rattle.paper.specs.Vocabulary.{every};
ghost use Rattle.paper.specs.Bits.{field, fields_at};
ghost use Rattle.paper.specs.File.{in_edition, record_widths, record_fields, record_from, spare_from, records_in, source_of, spare_clear};
ghost use Rattle.layout.specs.Editions.{edition_number};
ghost use Rattle.layout.specs.Shapes.{length_of};
ghost use Rattle.layout.specs.Places.{Holds, Lies};
ghost use Rattle.unpack.specs.Unpack.{words_array};

use layout::{Edition, JITTER_BITS, RECORD_USED, SPARE_ONE, SPARE_TWO, Shape, WORD_BITS};
use paper::{MOST_TASKS, MOST_WORDS, Record, Source, Table};

// Edition 1 has no place for a jitter.
const NO_JITTER: u32 = 0;

// What stands past n.
const ZERO: Record = Record {
    cost: 0,
    period: 0,
    deadline: 0,
    priority: 0,
    threshold: 0,
    source: Source::Own,
    first: 0,
    count: 0,
    name: 0,
    jitter: 0,
};

// No `From`: neither type is of this crate.
fn source_of(bit: u64) -> Source
    ensures { result ≡ source_of bit }
{
    match bit {
        0 => Source::Own,
        _ => Source::Catalogue,
    }
}

// What stands behind the used bits of the record that begins at bit `at`: in edition 2 its jitter,
fn jitter_in(f: &[u8], edition: Edition, at: usize) -> u32
    requires { Lies (length f.now) (edition_number edition) at }
    ensures { result ≡ in_edition (edition_number edition) 0 (field f.now (at + 90) 20) }
{
    match edition {
        Edition::One => NO_JITTER,
        Edition::Two => bits::get(f, at + RECORD_USED, JITTER_BITS) as u32,
    }
}

// and last its spare bits.
fn spare_in(f: &[u8], edition: Edition, at: usize) -> u64
    requires { Lies (length f.now) (edition_number edition) at }
    ensures { result ≡ in_edition (edition_number edition) (field f.now (at + 90) 6) (field f.now (at + 110) 10) }
{
    match edition {
        Edition::One => bits::get(f, at + RECORD_USED, SPARE_ONE),
        Edition::Two => bits::get(f, at + RECORD_USED + JITTER_BITS, SPARE_TWO),
    }
}

// The record that begins there.
fn record_in(f: &[u8], edition: Edition, at: usize) -> Record
    requires { Lies (length f.now) (edition_number edition) at }
    ensures { result ≡ record_from (edition_number edition) (fields_at f.now at (record_widths (edition_number edition))) }
{
    Record {
        cost: bits::get(f, at, 20) as u32,
        period: bits::get(f, at + 20, 20) as u32,
        deadline: bits::get(f, at + 40, 20) as u32,
        priority: bits::get(f, at + 60, 4) as u32,
        threshold: bits::get(f, at + 64, 4) as u32,
        source: source_of(bits::get(f, at + 68, 1)),
        first: bits::get(f, at + 69, 7) as u32,
        count: bits::get(f, at + 76, 7) as u32,
        name: bits::get(f, at + 83, 7) as u32,
        jitter: jitter_in(f, edition, at),
    }
}

// The table of the first n records; the others are zero.
#[tactic(auto, using(crate::proofs::Turns::records))]
pub fn table_in(f: &[u8], edition: Edition, n: usize) -> Table
    requires { Holds (length f.now) (edition_number edition) n }
    ensures { (result.n ≡ n) × (result.records ≡ records_in f.now (edition_number edition) n) }
{
    let mut records = [ZERO; MOST_TASKS];
    for k in 0..n {
        records[k] = record_in(f, edition, edition.record_at(k));
    }
    Table { n, records }
}

// The region words after the records, at the front of an array of zeros: the core has no heap.
#[tactic(auto, using(crate::proofs::Turns::words))]
pub fn words_in(f: &[u8], shape: Shape) -> [u32; MOST_WORDS]
    requires { length f.now ≡ length_of shape }
    ensures { result ≡ words_array f.now (edition_number shape.edition) shape.tasks shape.words }
{
    let mut words = [0; MOST_WORDS];
    for k in 0..shape.words {
        words[k] = bits::get(f, shape.word_at(k), WORD_BITS) as u32;
    }
    words
}

#[tactic(auto, using(crate::proofs::Turns::spare), unfolding(paper::specs::Vocabulary::every))]
fn records_spare_clear(f: &[u8], edition: Edition, n: usize) -> bool
    requires { Holds (length f.now) (edition_number edition) n }
    ensures { result ≡ every n (λ k. eqb (spare_from (edition_number edition) (record_fields f.now (edition_number edition) k)) 0) }
{
    let mut clear = true;
    for k in 0..n {
        clear &= spare_in(f, edition, edition.record_at(k)) == 0;
    }
    clear
}

// Are the spare bits of the head and of the records clear, and the filler after the words?
#[tactic(auto, unfolding(paper::specs::File::spare_clear))]
pub fn spare_clear(f: &[u8], shape: Shape) -> bool
    requires { length f.now ≡ length_of shape }
    ensures { result ≡ spare_clear f.now (edition_number shape.edition) shape.tasks shape.words }
{
    let head = bits::get(f, 4, 4);
    let records = records_spare_clear(f, shape.edition, shape.tasks);
    let words = WORD_BITS * shape.words;
    let filler = bits::get(f, shape.word_at(shape.words), words.div_ceil(8) * 8 - words);
    (head == 0) & (records & (filler == 0))
}
