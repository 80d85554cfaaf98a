//! The effect of a recursive step at a level.

ghost use Rattle.std.specs.Prelude.{◌≡◌};
ghost use Rattle.jsonb.specs.LevelTable.{at_level};

use super::{RecursiveLevel, RecursiveLevelEnd};

impl RecursiveLevel {
    /// Returns whether an item of this level is selected, and whether its children are visited.
    ///
    /// Before the start the item is not selected, and its children are visited unless the end is before the start. From
    /// the start on, both are `true` up to the end; with `Last` they always are. Without an end only the start is
    /// selected, and its children are not visited.
    ///
    /// # Complexity
    ///
    /// O(1). Does not allocate.
    ///
    /// # Examples
    ///
    /// ```rust crates/jsonb_examples/src/evaluation.rt
    /// let (is_selected, _) = levels.check_recursive_level(level);
    /// is_selected
    /// ```
    pub fn check_recursive_level(&self, level: u8) -> (bool, bool)
        ensures { result ≡ at_level self.now.end self.now.start level }
    {
        let is_below = level < self.start;
        match self.end {
            None => (level == self.start, is_below),
            Some(RecursiveLevelEnd::Index(end)) => {
                if is_below {
                    (false, self.start <= end)
                } else {
                    (level <= end, level <= end)
                }
            }
            Some(RecursiveLevelEnd::Last) => (!is_below, true),
        }
    }
}
