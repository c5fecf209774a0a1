// Where a run is cut.

/// A place of a run, counted from 0, and what is left of what happens there, as the words of a part.
#[derive(Clone, Copy)]
pub struct Cut {
    pub at: usize,
    pub way: &'static str,
}

/// How many cuts so many places have: at each of them nothing is left, all, or other bytes.
pub fn count_cuts(places: usize) -> usize {
    places.saturating_mul(3)
}

/// The cut of this number, counted from 0.
pub fn cut_at(k: usize) -> Cut {
    Cut {
        at: k / 3,
        way: match k % 3 {
            0 => "before",
            1 => "after",
            _ => "bytes zz",
        },
    }
}
