// The parts of a cabinet file that stand before its seal: the head, the records and the region words.
#![tactic(auto)]

ghost use Rattle.std.specs.Prelude.{◌≡◌, [], ◌∷◌, ◌+◌, ◌*◌, ◌<◌, ◌/◌, ◌≤◌, ◌^◌, length, take, drop};
ghost use Rattle.paper.specs.Bits.{put_field, put_fields};
ghost use Rattle.paper.specs.File.{in_edition, source_bit, used_widths, used_values, record_widths, record_values, word_at, put_head, put_records, put_words};
ghost use Rattle.layout.specs.Editions.{edition_number};
ghost use Rattle.layout.specs.Shapes.{length_of};
ghost use Rattle.layout.specs.Places.{Holds, Lies};

use layout::{Edition, JITTER_BITS, RECORD_USED, SPARE_ONE, SPARE_TWO, Shape, WORD_BITS};
use paper::{Plate, Record, Source, Table};

// Spare bits.
const CLEAR: u64 = 0;

// Makes s the head over zero bits.
pub fn put_head(s: &mut [u8], shape: Shape, plate: Plate)
    requires { length s.old ≡ length_of shape }
    ensures { s.new ≡ put_head (edition_number shape.edition) plate.cabinet.0 plate.line.0 shape.tasks shape.words }
{
    s.fill(0);
    let fields = [
        (4, u64::from(u8::from(shape.edition))),
        (4, CLEAR),
        (24, u64::from(plate.cabinet.0)),
        (16, u64::from(plate.line.0)),
        (8, shape.tasks as u64),
        (8, shape.words as u64),
    ];
    bits::put_all(s, 0, &fields);
}

// No `From`: neither type is of this crate.
fn source_bit(source: Source) -> u64
    ensures { result ≡ source_bit source }
{
    match source {
        Source::Own => 0,
        Source::Catalogue => 1,
    }
}

// A record in two parts, and what its edition has behind them. The widths and places are numbers in the code and each part has one caller, so that
// each field compiles to straight code; a part that several calls shared would stay a call.
#[tactic(auto, using(crate::proofs::Steps::places), unfolding(paper::specs::Bits::put_fields))]
fn put_numbers(s: &mut [u8], at: usize, r: &Record)
    requires { (at + 68 ≤ length s.old * 8) × (at < 2 ^ 20) }
    ensures { s.new ≡ put_fields s.old at (take 5 used_widths) (take 5 (used_values r.now)) }
{
    bits::put(s, at, 20, u64::from(r.cost));
    bits::put(s, at + 20, 20, u64::from(r.period));
    bits::put(s, at + 40, 20, u64::from(r.deadline));
    bits::put(s, at + 60, 4, u64::from(r.priority));
    bits::put(s, at + 64, 4, u64::from(r.threshold));
}

#[tactic(auto, using(crate::proofs::Steps::places), unfolding(paper::specs::Bits::put_fields))]
fn put_places(s: &mut [u8], at: usize, r: &Record)
    requires { (at + 22 ≤ length s.old * 8) × (at < 2 ^ 20) }
    ensures { s.new ≡ put_fields s.old at (drop 5 used_widths) (drop 5 (used_values r.now)) }
{
    bits::put(s, at, 1, source_bit(r.source));
    bits::put(s, at + 1, 7, u64::from(r.first));
    bits::put(s, at + 8, 7, u64::from(r.count));
    bits::put(s, at + 15, 7, u64::from(r.name));
}

// Behind them in edition 1 six spare bits, in edition 2 the jitter and ten.
#[tactic(auto, unfolding(paper::specs::Bits::put_fields))]
fn put_tail(s: &mut [u8], at: usize, edition: Edition, jitter: u32)
    requires { (at + in_edition (edition_number edition) 6 30 ≤ length s.old * 8) × (at < 2 ^ 20) }
    ensures { s.new ≡ put_fields s.old at (in_edition (edition_number edition) (6 ∷ []) (20 ∷ 10 ∷ [])) (in_edition (edition_number edition) (0 ∷ []) (jitter ∷ 0 ∷ [])) }
{
    match edition {
        Edition::One => bits::put(s, at, SPARE_ONE, CLEAR),
        Edition::Two => {
            bits::put(s, at, JITTER_BITS, u64::from(jitter));
            bits::put(s, at + JITTER_BITS, SPARE_TWO, CLEAR);
        }
    }
}

// The record r, from bit `at` on.
#[tactic(auto, using(crate::proofs::Steps::record_parts))]
fn put_record(s: &mut [u8], edition: Edition, at: usize, r: &Record)
    requires { Lies (length s.old) (edition_number edition) at }
    ensures { s.new ≡ put_fields s.old at (record_widths (edition_number edition)) (record_values (edition_number edition) r.now) }
{
    put_numbers(s, at, r);
    put_places(s, at + 68, r);
    put_tail(s, at + RECORD_USED, edition, r.jitter);
}

// Puts the table's records.
#[tactic(auto, using(crate::proofs::Steps::record_turns), unfolding(paper::specs::File::put_records))]
pub fn put_records(s: &mut [u8], edition: Edition, t: &Table)
    requires { Holds (length s.old) (edition_number edition) t.now.n }
    ensures { s.new ≡ put_records s.old (edition_number edition) t.now.records t.now.n }
{
    for k in 0..t.n {
        put_record(s, edition, edition.record_at(k), &t.records[k]);
    }
}

// Two words are five bytes, so that each word of a pair begins at a known place in its byte: straight code again.
const PAIR_BITS: usize = 2 * WORD_BITS;

fn put_pair(s: &mut [u8], at: usize, a: u32, b: u32)
    requires { (at + 40 ≤ length s.old * 8) × (at < 2 ^ 20) }
    ensures { s.new ≡ put_field (put_field s.old at 20 a) (at + 20) 20 b }
{
    bits::put(s, at, WORD_BITS, u64::from(a));
    bits::put(s, at + WORD_BITS, WORD_BITS, u64::from(b));
}

// Puts the words that make pairs, behind the records.
#[tactic(auto, using(crate::proofs::Steps::pair_turns), unfolding(paper::specs::File::put_words))]
fn put_pairs(s: &mut [u8], shape: Shape, ws: &[u32])
    requires words { length ws.now ≡ shape.words }
    requires room { word_at (edition_number shape.edition) shape.tasks (length ws.now) ≤ length s.old * 8 }
    ensures { s.new ≡ put_words s.old (edition_number shape.edition) shape.tasks ws.now (2 * (length ws.now / 2)) }
{
    let at = shape.edition.record_at(shape.tasks);
    for i in 0..ws.len() / 2 {
        put_pair(s, at + PAIR_BITS * i, ws[2 * i], ws[2 * i + 1]);
    }
}

// Puts the region words behind the records.
#[tactic(auto, using(crate::proofs::Steps::last_word))]
pub fn put_words(s: &mut [u8], shape: Shape, ws: &[u32])
    requires words { length ws.now ≡ shape.words }
    requires room { word_at (edition_number shape.edition) shape.tasks (length ws.now) ≤ length s.old * 8 }
    ensures { s.new ≡ put_words s.old (edition_number shape.edition) shape.tasks ws.now (length ws.now) }
{
    put_pairs(s, shape, ws);
    if ws.len() % 2 == 1 {
        let last = ws.len() - 1;
        bits::put(s, shape.word_at(last), WORD_BITS, u64::from(ws[last]));
    }
}
