//! Keys of eight bytes and their values of four.

/// The key with this number. Keys of other numbers are other keys, and follow in no order.
pub fn key_of(number: u64) -> [u8; 8] {
    number.wrapping_mul(0x9e37_79b9_7f4a_7c15).to_be_bytes()
}

/// The value at that key.
pub fn value_of(number: u64) -> [u8; 4] {
    let [.., a, b, c, d] = number.to_be_bytes();
    [a, b, c, d]
}
