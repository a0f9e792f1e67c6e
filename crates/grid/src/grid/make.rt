//! Whether a grid can be made, and how it is made.

ghost use Rattle.std.specs.Prelude.{◌≡◌, length};
ghost use Rattle.grid.specs.Layout.{fit_answer, words_for, cleared};
ghost use Rattle.grid.specs.Grids.{grid_meaning, made};

use super::Grid;
use graph::{Counts, FitFault};

impl<'a> Grid<'a> {
    /// Whether a grid of so many labels and nodes can be made in `words` words. Refuses counts out of range with COUNTS, then words that have fewer bits than there are triples with MEMORY.
    pub fn fit(counts: Counts, words: usize) -> Result<(), FitFault>
        ensures { result ≡ fit_answer counts.labels counts.nodes words }
    {
        counts.fit()?;
        if words < words_for(counts) {
            return Err(FitFault::Memory);
        }
        Ok(())
    }

    /// An empty grid. Clears just as many words as its triples need, and leaves the others as they were. Where `fit` refuses, the grid has no labels and no nodes, and all words stay as they were.
    pub fn new(words: &'a mut [u64], counts: Counts) -> Grid<'a>
        ensures lent { result.words.ghost_name ≡ words.entry.ghost_name }
        ensures memory { result.words.now ≡ cleared counts.labels counts.nodes words.old }
        ensures means { grid_meaning result ≡ made counts.labels counts.nodes (length words.old) }
    {
        let Ok(()) = Grid::fit(counts, words.len()) else {
            let counts = Counts::new(0, 0);
            return Grid {
                words,
                counts,
                size: 0,
            };
        };
        words[..words_for(counts)].fill(0);
        Grid {
            words,
            counts,
            size: 0,
        }
    }
}

/// The fewest words that have a bit for each triple.
fn words_for(counts: Counts) -> usize
    ensures { result ≡ words_for counts.labels counts.nodes }
{
    let nodes = usize::from(counts.nodes);
    (usize::from(counts.labels) * nodes * nodes).div_ceil(64)
}
