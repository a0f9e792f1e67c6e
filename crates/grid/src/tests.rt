ghost use Rattle.std.specs.Prelude.{◌≡◌, length};
ghost use Rattle.graph.specs.Graph.{at};
ghost use Rattle.grid.specs.Bits.{words_after_put};
ghost use Rattle.grid.specs.Layout.{cleared};
ghost use Rattle.grid.specs.Grids.{made};

use super::*;
use graph::{Counts, Numbered, Triple};
use relation::{Grant, MATCHED_PAIRS, Store, StoreFault, drive};

#[test]
fn is_driven_as_any_store(rt: HostRuntime) {
    let mut words = [u64::MAX; 2];
    let mut grid = Grid::new(&mut words, Counts::new(3, 4));
    assert_eq!(rt; drive(&mut grid, &MATCHED_PAIRS), None);
    assert_eq!(rt; (grid.size(), grid.spent(), grid.capacity()), (10, 0, 0));
    // Label 0 has bits 1, 6 and 15, label 1 bits 16 + 11 and 16 + 12, label 2 bits 32 + 0, 5, 7, 10 and 15.
    assert_eq!(rt; words, [0x84a1_1800_8042, u64::MAX]);
}

#[test]
fn holds_what_is_put(rt: HostRuntime) {
    let mut words = [u64::MAX; 2];
    let mut grid = Grid::new(&mut words, Counts::new(2, 3));
    assert_eq!(rt; (grid.labels(), grid.nodes(), grid.size()), (2, 3, 0));
    assert!(rt; !grid.has(Triple::new(1, 2, 0)));
    assert!(rt; grid.fits(Triple::new(1, 2, 0)));
    assert_eq!(rt; grid.put(Triple::new(1, 2, 0)), Ok(Grant::New));
    assert_eq!(rt; grid.put(Triple::new(1, 2, 0)), Ok(Grant::Known));
    assert!(rt; grid.has(Triple::new(1, 2, 0)));
    assert!(rt; !grid.has(Triple::new(1, 0, 2)));
    assert_eq!(rt; (grid.size(), grid.spent(), grid.capacity()), (1, 0, 0));
    // Bit (1 * 3 + 2) * 3 + 0.
    assert_eq!(rt; words, [1 << 15, u64::MAX]);
}

#[test]
fn refuses_what_is_out_of_range(rt: HostRuntime) {
    let mut words = [u64::MAX];
    let mut grid = Grid::new(&mut words, Counts::new(2, 4));
    assert_eq!(rt; grid.put(Triple::new(2, 4, 4)), Err(StoreFault::Label));
    assert_eq!(rt; grid.put(Triple::new(1, 4, 0)), Err(StoreFault::Node));
    assert_eq!(rt; grid.put(Triple::new(1, 0, 4)), Err(StoreFault::Node));
    assert_eq!(rt; grid.put(Triple::new(1, 3, 3)), Ok(Grant::New));
    assert_eq!(rt; grid.put(Triple::new(1, 1, 0)), Ok(Grant::New));
    // Bit (1 * 4 + 0) * 4 + 4 is that of (1, 1, 0).
    assert!(rt; !grid.has(Triple::new(1, 0, 4)));
    assert!(rt; !grid.has(Triple::new(1, 4, 0)));
    assert!(rt; !grid.has(Triple::new(255, 65535, 65535)));
    assert!(rt; !grid.fits(Triple::new(2, 0, 0)));
    assert_eq!(rt; grid.size(), 2);
    assert_eq!(rt; words, [1 << 31 | 1 << 20]);
}

/// Labels, nodes, words, and the number of what a fit check answers.
const FITS: [(u8, u16, usize, u8); 18] = [
    (0, 1, 1, 1),
    (1, 1, 1, 0),
    (64, 1, 1, 0),
    (65, 1, 9, 1),
    (1, 0, 1, 1),
    (1, 1024, 16384, 0),
    (1, 1024, 16383, 2),
    (1, 1025, 99999, 1),
    (1, 1, 0, 2),
    (1, 8, 1, 0),
    (1, 9, 1, 2),
    (1, 9, 2, 0),
    (64, 8, 64, 0),
    (64, 8, 63, 2),
    (64, 1024, 1048576, 0),
    (64, 1024, 1048575, 2),
    (0, 1, 0, 1),
    (1, 1025, 0, 1),
];

#[test]
fn fits_where_there_is_a_bit_for_each_triple(rt: HostRuntime) {
    for (labels, nodes, words, number) in FITS {
        assert_eq!(rt;
            Grid::fit(Counts::new(labels, nodes), words).number(),
            number
        );
    }
}

#[test]
fn is_empty_where_it_does_not_fit(rt: HostRuntime) {
    let mut words = [7];
    let mut grid = Grid::new(&mut words, Counts::new(5, 4));
    assert_eq!(rt; (grid.labels(), grid.nodes()), (0, 0));
    assert_eq!(rt; (grid.size(), grid.capacity()), (0, 0));
    assert_eq!(rt; grid.put(Triple::new(0, 0, 0)), Err(StoreFault::Label));
    assert_eq!(rt; words, [7]);
    let grid = Grid::new(&mut words, Counts::new(65, 1));
    assert_eq!(rt; (grid.labels(), grid.nodes()), (0, 0));
    assert_eq!(rt; words, [7]);
}

#[test]
fn takes_one_label_and_one_node(rt: HostRuntime) {
    let mut words = [u64::MAX; 2];
    let mut grid = Grid::new(&mut words, Counts::new(1, 1));
    assert_eq!(rt; grid.put(Triple::new(0, 0, 0)), Ok(Grant::New));
    assert_eq!(rt; grid.put(Triple::new(0, 0, 1)), Err(StoreFault::Node));
    assert_eq!(rt; words, [1, u64::MAX]);
}

#[test]
fn takes_the_last_of_64_labels(rt: HostRuntime) {
    let mut words = [u64::MAX; 65];
    let mut grid = Grid::new(&mut words, Counts::new(64, 8));
    assert_eq!(rt; grid.put(Triple::new(63, 7, 7)), Ok(Grant::New));
    assert_eq!(rt; (words[0], words[62]), (0, 0));
    assert_eq!(rt; (words[63], words[64]), (1 << 63, u64::MAX));
}

#[test]
fn takes_the_last_of_1024_nodes(rt: HostRuntime) {
    let mut words = [u64::MAX; 16384];
    let mut grid = Grid::new(&mut words, Counts::new(1, 1024));
    assert_eq!(rt; grid.put(Triple::new(0, 1023, 1023)), Ok(Grant::New));
    assert!(rt; grid.has(Triple::new(0, 1023, 1023)));
    assert_eq!(rt; (words[16382], words[16383]), (0, 1 << 63));
}

/// What the lender has once a grid in its words is gone, and once one is that a triple was put into.
fn lend(words: &mut [u64], counts: Counts)
    ensures { words.new ≡ cleared counts.labels counts.nodes words.old }
{
    let _grid = Grid::new(words, counts);
}

fn lend_and_put(words: &mut [u64], counts: Counts, triple: Triple)
    ensures { words.new ≡ at (words_after_put (cleared counts.labels counts.nodes words.old) (made counts.labels counts.nodes (length words.old)).labels (made counts.labels counts.nodes (length words.old)).nodes) triple }
{
    let mut grid = Grid::new(words, counts);
    let _ = grid.put(triple);
}
