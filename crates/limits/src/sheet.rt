// A sheet: its length in bytes, and the limits of its bytes and its numbers.
#[derive(Clone, Copy)]
pub struct Sheet {
    pub length: u64,
}

impl Sheet {
    pub const BYTES_MOST: u64 = 4_096;
    // A number has one digit to nine.
    pub const DIGITS_FEWEST: u64 = 1;

    pub const DIGITS_MOST: u64 = 9;
}
