// The values of the example. None of the masks and random elements is random: they show the layout and nothing more.
use std::array;

// How many shares the example uses.
pub const SHARES: u32 = 3;

// A published vector of PRESENT-80: a key of ones and a block of zeros.
pub const KEY: [u8; 10] = [0xff, 0xff, 0xff, 0xff, 0xff, 0xff, 0xff, 0xff, 0xff, 0xff];

pub const BLOCK: [u8; 8] = [0, 0, 0, 0, 0, 0, 0, 0];

pub const PUBLISHED: [u8; 8] = [0xe7, 0x2c, 0x46, 0xc0, 0xf5, 0x94, 0x50, 0x49];

// The masks of the key, that of share 1 first.
pub const KEY_MASKS: [u8; 20] = [
    0x01, 0x23, 0x45, 0x67, 0x89, 0xab, 0xcd, 0xef, 0x01, 0x23, 0x3c, 0x91, 0x5e, 0xa7, 0x0b, 0xd8,
    0x62, 0xf4, 0x29, 0x86,
];

// The masks of the block, that of share 1 first.
pub const BLOCK_MASKS: [u8; 16] = [
    0x0f, 0x1e, 0x2d, 0x3c, 0x4b, 0x5a, 0x69, 0x78, 0xc5, 0x3a, 0x97, 0x60, 0x1d, 0xe8, 0x42, 0xbf,
];

// Steps worth watching: the lowest nibble of each share after the first key addition, the first random element, and the
// lowest nibble of each share of the ciphertext. The numbers follow from docs/FORMATS.md.
pub const WATCHED: [u32; 7] = [0, 16, 32, 60, 117149, 117165, 117181];

// A vector of AES-128: appendix C.1 of FIPS 197.
pub const AES_KEY: [u8; 16] = [0, 1, 2, 3, 4, 5, 6, 7, 8, 9, 10, 11, 12, 13, 14, 15];

pub const AES_BLOCK: [u8; 16] = [
    0x00, 0x11, 0x22, 0x33, 0x44, 0x55, 0x66, 0x77, 0x88, 0x99, 0xaa, 0xbb, 0xcc, 0xdd, 0xee, 0xff,
];

pub const AES_PUBLISHED: [u8; 16] = [
    0x69, 0xc4, 0xe0, 0xd8, 0x6a, 0x7b, 0x04, 0x30, 0xd8, 0xcd, 0xb7, 0x80, 0x70, 0xb4, 0xc5, 0x5a,
];

// Bytes that stand for random ones, as the library takes no randomness by itself: a plain pattern, so that nobody takes it for a random one.
pub fn bytes<const N: usize>() -> [u8; N] {
    array::from_fn(|i| ((i % 256 * 7 + 3) % 256) as u8)
}
