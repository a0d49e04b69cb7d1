// Parts of bytes, poison, counts and a digest.

// The first n bytes; all of them where there are fewer.
pub(crate) fn front(s: &[u8], n: usize) -> &[u8] {
    s.get(..n).unwrap_or(s)
}

// What is behind the first n bytes.
pub(crate) fn behind(s: &[u8], n: usize) -> &[u8] {
    s.get(n..).unwrap_or(s)
}

// What a buffer holds before a run: every value a byte can have, and for each seed others.
pub(crate) fn poison(i: usize, seed: u8) -> u8 {
    ((i % 256) as u8).wrapping_add(seed)
}

// Poison all over.
pub(crate) fn poison_all(out: &mut [u8], seed: u8) {
    for (i, b) in out.iter_mut().enumerate() {
        *b = poison(i, seed);
    }
}

// Whether all bytes from `from` on are the poison that was put there.
pub(crate) fn is_poison(s: &[u8], from: usize, seed: u8) -> bool {
    for i in from..s.len() {
        if s[i] != poison(i, seed) {
            return false;
        }
    }
    true
}

// How many bytes are 1.
pub(crate) fn count_ones(s: &[u8]) -> u64 {
    s.iter().filter(|b| **b == 1).count() as u64
}

// FNV-1a of 64 bits, by its offset and its prime.
pub(crate) fn digest(s: &[u8]) -> u64 {
    s.iter().fold(
        0xcbf29ce484222325,
        |h: u64, b| (h ^ *b as u64).wrapping_mul(0x100000001b3),
    )
}
