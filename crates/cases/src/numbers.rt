// Lists of numbers parted by commas.
use std::alloc::{AllocError, Global};

// What is no number of a byte counts as 255, which no order has and no choice is above.
pub(crate) fn numbers(heap: Global, text: &str) -> Result<Vec<u8>, AllocError> {
    let numbers = text.split(',');
    numbers
        .map(|number| number.parse::<u8>().unwrap_or(255))
        .collect(heap)
}
