//! The lines of an order in a row, which need no memory of their own.
ghost use Rattle.std.specs.Prelude.{◌≡◌, ◌≤◌, ◌<◌, [], ◌∷◌, ◌++◌, length, slice_get};

use crate::limits::MOST_LINES;
use crate::order::Line;
use std::marker::Model;

/// At most four lines in order, which contracts see as their list. They stand in the value itself, so copying it allocates
/// nothing; unused places are blank.
#[derive(Clone, Copy, Debug)]
pub struct LineList {
    places: [Line; MOST_LINES],
    size: usize,
}

impl Model for LineList {
    ghost use Rattle.std.specs.Prelude.{List, length, take};
    ghost use Rattle.calvin_stock.specs.declared.order.Line.{Line};
    ghost use Rattle.calvin_stock.specs.LineList.{IsLineList, filled_up};

    ghost Value = { List Line };

    ghost view = { λ s. take s.size s.places };

    ghost invariant = { λ s. IsLineList s.places s.size };

    ghost inverse = { λ ls. record { places = filled_up ls; size = length ls } };

    ghost inverse_ok = { λ a h i. record { places = h.rest i; size = h.size_is i } };
}

impl PartialEq for LineList {
    ghost use Rattle.calvin_stock.specs.SameLines.{same_lines, same_lines_per};

    ghost eq = { same_lines };

    ghost laws = { same_lines_per };

    fn eq(&self, other: &LineList) -> bool {
        *self.as_slice() == *other.as_slice()
    }
}

impl Eq for LineList {
    ghost use Rattle.calvin_stock.specs.SameLines.{same_lines_equiv};

    ghost laws = { same_lines_equiv };
}

impl LineList {
    /// No lines.
    pub fn new() -> LineList
        ensures { result ≡ [] }
    {
        LineList {
            places: [Line { item: 0, pieces: 0 }; MOST_LINES],
            size: 0,
        }
    }

    /// How many lines there are.
    pub fn len(&self) -> usize
        ensures len { result ≡ length self.now }
        ensures at_most { length self.now ≤ MOST_LINES }
    {
        self.size
    }

    /// The line with `i` lines before it: `i` is below `len()`.
    pub fn at(&self, i: usize) -> Line
        requires { i < length self.now }
        ensures { slice_get self.now i ≡ Some result }
    {
        let size = self.size;
        prove!(i < size);
        self.places[i]
    }

    /// All of them.
    pub fn as_slice(&self) -> &[Line]
        ensures { result.now ≡ self.now }
    {
        &self.places[..self.size]
    }

    /// Puts a line at the end of fewer than four.
    pub fn push(&mut self, line: Line)
        requires { length self.old < MOST_LINES }
        ensures { self.new ≡ self.old ++ line ∷ [] }
    {
        let size = self.size;
        self.places[size] = line;
        self.size = size + 1;
    }
}
