// Packed fields: a field of any width got and put, and a list of fields put.
#![tactic(auto)]

ghost use Rattle.std.specs.Prelude.{◌≡◌, ◌+◌, ◌-◌, ◌*◌, ◌/◌, ◌%◌, ◌<◌, ◌≤◌, ◌^◌, length, get_or};
ghost use Rattle.paper.specs.Bits.{field, put_field, put_fields};
ghost use Rattle.bits.specs.Fields.{total, widths, values, with_bits};

// 2 to the power k.
fn weight(k: usize) -> u64
    requires { k < 64 }
    ensures { (result ≡ 2 ^ k) × (0 < result) }
{
    1 << k
}

// Five bytes as one number, the first the highest.
fn joined(a: u8, b: u8, c: u8, d: u8, e: u8) -> u64
    ensures { result ≡ (((a * 256 + b) * 256 + c) * 256 + d) * 256 + e }
{
    ((((a as u64) * 256 + (b as u64)) * 256 + (c as u64)) * 256 + (d as u64)) * 256 + (e as u64)
}

// Two functions for speed: where all five bytes are inside, none is asked whether it is there.
fn five_inside(s: &[u8], i: usize) -> u64
    requires { i + 5 ≤ length s.now }
    ensures { result ≡ field s.now (i * 8) 40 }
{
    joined(s[i], s[i + 1], s[i + 2], s[i + 3], s[i + 4])
}

// The byte at i, or 0 past the end.
fn byte(s: &[u8], i: usize) -> u8
    ensures { result ≡ get_or s.now i 0 }
{
    s.get(i).copied().unwrap_or(0)
}

fn five_at_end(s: &[u8], i: usize) -> u64
    requires { i < 2 ^ 32 }
    ensures { result ≡ field s.now (i * 8) 40 }
{
    joined(
        byte(s, i),
        byte(s, i + 1),
        byte(s, i + 2),
        byte(s, i + 3),
        byte(s, i + 4),
    )
}

// The five bytes from i on as one number, those past the end 0.
fn five(s: &[u8], i: usize) -> u64
    requires { i < 2 ^ 32 }
    ensures { result ≡ field s.now (i * 8) 40 }
{
    if i + 5 <= s.len() {
        five_inside(s, i)
    } else {
        five_at_end(s, i)
    }
}

// The field of `width` bits from bit `at` on. It lies in five bytes, which are read whole.
#[tactic(auto, using(crate::proofs::Uses::gots))]
pub fn get(s: &[u8], at: usize, width: usize) -> u64
    requires { (at + width ≤ length s.now * 8) × (width ≤ 32) × (at < 2 ^ 32) }
    ensures value { result ≡ field s.now at width }
    ensures upper_bound { result < 2 ^ width }
{
    let below = 40 - (at % 8 + width);
    (five(s, at / 8) >> below) % weight(width)
}

// The byte x with the low w bits of v for its w bits from the one of weight 2 to the k up.
#[tactic(auto, using(crate::proofs::Uses::weights))]
fn with_bits(x: u8, k: usize, w: usize, v: u64) -> u8
    requires { k + w ≤ 8 }
    ensures { result ≡ with_bits x k w v }
{
    let y = x as u64;
    let a = weight(k);
    let b = weight(w);
    (((y >> k >> w) * b + v % b) * a + y % a) as u8
}

// A field that lies in one byte.
#[tactic(auto, using(crate::proofs::Uses::in_byte))]
fn put_part(s: &mut [u8], at: usize, width: usize, value: u64)
    requires { (at % 8 + width ≤ 8) × (at / 8 < length s.old) }
    ensures { s.new ≡ put_field s.old at width value }
{
    let j = at / 8;
    s[j] = with_bits(s[j], 8 - (at % 8 + width), width, value);
}

// How many of the `left` bits from bit `at` on lie in the last byte that they reach.
fn last_part(at: usize, left: usize) -> usize
    requires { (0 < left) × (at + left < 2 ^ 32) }
    ensures { (0 < result) × (result ≤ left) × ((at + (left - result)) % 8 + result ≤ 8) }
{
    ((at + left - 1) % 8 + 1).min(left)
}

// Puts the low `width` bits of `value` from bit `at` on: a byte at a time, the last first.
#[tactic(auto, using(crate::proofs::Uses::put_turns))]
pub fn put(s: &mut [u8], at: usize, width: usize, value: u64)
    requires { (at + width ≤ length s.old * 8) × (at + width < 2 ^ 32) }
    ensures { s.new ≡ put_field s.old at width value }
{
    let mut left = width;
    let mut v = value;
    // No `for`: how many bits a turn puts depends on where they lie in their byte.
    while 0 < left {
        let n = last_part(at, left);
        left -= n;
        put_part(s, at + left, n, v);
        v >>= n;
    }
}

// Puts the fields, each a width and a value, one after the other from bit `at` on.
#[tactic(auto, using(crate::proofs::Uses::all_turns))]
pub fn put_all(s: &mut [u8], at: usize, fields: &[(usize, u64)])
    requires { (at + total (widths fields.now) ≤ length s.old * 8) × (at + total (widths fields.now) < 2 ^ 32) }
    ensures { s.new ≡ put_fields s.old at (widths fields.now) (values fields.now) }
{
    let mut p = at;
    for &(width, value) in fields {
        put(s, p, width, value);
        p += width;
    }
}
