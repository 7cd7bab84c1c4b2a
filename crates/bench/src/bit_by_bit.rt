// The seal bit by bit, as the core worked it out before it had a table (document 02, item 3): what the table is measured beside.
// It promises nothing; `bench/seal.rs` asserts that both come to the same.

fn seal_bit(c: u16) -> u16 {
    if c < 0x8000 {
        c * 2
    } else {
        ((c - 0x8000) * 2) ^ 0x1021
    }
}

fn seal_byte(c: u16, b: u8) -> u16 {
    let mut x = c ^ (b as u16) * 256;
    for _ in 0..8 {
        x = seal_bit(x);
    }
    x
}

pub fn bench_seal_bits(s: &[u8]) -> u16 {
    let mut c: u16 = 0xffff;
    for &b in s {
        c = seal_byte(c, b);
    }
    c
}
