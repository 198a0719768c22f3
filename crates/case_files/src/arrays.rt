// The arrays that outputs are lent in, with eight elements in front of them and eight behind.

use std::array;

// Bytes before a question.
pub fn bytes() -> [u8; 4216] {
    array::from_fn(|i| ((37 * i + 11) % 256) as u8)
}

// Costs before a question.
pub fn costs() -> [u32; 96] {
    array::from_fn(|i| 0xC0000000 + i as u32)
}

// Sets before a question.
pub fn sets() -> [u64; 96] {
    array::from_fn(|i| 0x5E70000000000000 + i as u64)
}
