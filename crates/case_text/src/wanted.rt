//! The wanted text: it stands after an arrow, and has a cell for each outcome or one cell for all of them.

/// The line without its arrow, and what stands after the arrow, if there is one. A line may begin with its arrow.
pub fn around_arrow(text: &str) -> (&str, Option<&str>) {
    if let Some(cells) = text.strip_prefix("-> ") {
        return ("", Some(cells));
    }
    match text.split_once(" -> ") {
        Some((said, cells)) => (said, Some(cells)),
        None => (text, None),
    }
}

/// How many cells there are, at least 1.
pub fn count_cells(cells: &str) -> usize {
    cells.split('|').count()
}

/// What is wanted in the outcome with this number, counted from 0. A single cell counts for every outcome.
pub fn cell_of(cells: &str, outcome: usize) -> &str {
    cells.split('|').nth(outcome).unwrap_or(cells).trim()
}
