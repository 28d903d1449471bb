// Bytes written in hex.
use std::alloc::{AllocError, Global};

// What a digit stands for; anything else counts as 0, capitals too: so it is not `to_digit`.
fn digit(byte: u8) -> u8 {
    match byte {
        b'0'..=b'9' => byte - b'0',
        b'a'..=b'f' => byte - b'a' + 10,
        _ => 0,
    }
}

// Two digits a byte, put at the end.
fn decode(digits: &str, bytes: &mut Vec<u8>) -> Result<(), AllocError> {
    for pair in digits.as_bytes().chunks_exact(2) {
        bytes.push(digit(pair[0]).wrapping_mul(16) | digit(pair[1]))?;
    }
    Ok(())
}

// Pieces parted by commas, each two digits a byte; `00*96` stands for 96 times the same, and a count that is no number
// for 0 times. `-` has no bytes.
pub(crate) fn bytes_of(heap: Global, text: &str) -> Result<Vec<u8>, AllocError> {
    let mut bytes = Vec::new(heap);
    for piece in text.split(',') {
        let mut parts = piece.split('*');
        let digits = parts.next().unwrap_or("");
        let times = parts.next().unwrap_or("1").parse::<u32>().unwrap_or(0);
        for _ in 0..times {
            decode(digits, &mut bytes)?;
        }
    }
    Ok(bytes)
}
