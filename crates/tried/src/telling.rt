// What was found of a function, as a line.

// The function's name, and whether all was as expected.
pub(crate) fn tell(name: &[u8], good: bool) {
    io::write_all(1, name);
    if good {
        io::write_all(1, b": ok\n");
    } else {
        io::write_all(1, b": DIFFERS\n");
    }
}
