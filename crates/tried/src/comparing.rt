// What a text begins with.

// The text begins with these bytes, and each behind them is 170.
pub(crate) fn begins(text: &[u8], front: &[u8]) -> bool {
    match text.strip_prefix(front) {
        Some(rest) => rest.iter().all(|byte| *byte == 170),
        None => false,
    }
}
