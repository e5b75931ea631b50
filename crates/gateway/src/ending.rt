use day::Cabinet;

// Unloads a cabinet that is loaded, and ends it.
pub fn end(cabinet: Cabinet) {
    match cabinet {
        Cabinet::Off(empty) => empty.retire(),
        Cabinet::On(loaded) => loaded.unload().retire(),
    }
}
