ghost use Rattle.std.specs.Prelude.{◌≡◌, length};
ghost use Rattle.relation.specs.Meaning.{held_weight, put_answer, after_put};
ghost use Rattle.graph.specs.Graph.{at};
ghost use Rattle.quadtree.specs.Making.{made};
ghost use Rattle.quadtree.specs.Quadtrees.{BlocksAfter};

use super::*;
use graph::{Counts, FitFault, Triple};
use relation::{Grant, MATCHED_PAIRS, Store, StoreFault, drive};
use std::test::Fail;

/// A block as a lender may hand it in, with something in each quarter.
const USED: Block = Block {
    children: [7, 7, 7, 7],
};

#[test]
fn knows_the_heights(rt: HostRuntime) {
    let heights = [
        (0, Some(1)),
        (1, Some(1)),
        (2, Some(1)),
        (3, Some(2)),
        (4, Some(2)),
        (5, Some(3)),
        (512, Some(9)),
        (513, Some(10)),
        (1023, Some(10)),
        (1024, Some(10)),
        (1025, None),
    ];
    for (nodes, expected) in heights {
        assert_eq!(rt; height(nodes), expected);
    }
}

#[test]
fn checks_the_counts(rt: HostRuntime) {
    let cases = [
        (1, 1, Ok(())),
        (64, 1024, Ok(())),
        (0, 1, Err(FitFault::Counts)),
        (65, 1, Err(FitFault::Counts)),
        (1, 0, Err(FitFault::Counts)),
        (1, 1025, Err(FitFault::Counts)),
    ];
    for (labels, nodes, expected) in cases {
        assert_eq!(rt; Quadtree::fit(Counts::new(labels, nodes)), expected);
    }
}

#[test]
fn is_empty_where_it_does_not_fit(rt: HostRuntime) {
    let mut blocks = [USED; 2];
    let mut store = Quadtree::new(&mut blocks, Counts::new(65, 4));
    assert_eq!(rt; (store.labels(), store.nodes(), store.size()), (0, 0, 0));
    assert_eq!(rt; (store.spent(), store.capacity()), (0, 0));
    assert_eq!(rt; store.put(Triple::new(0, 0, 0)), Err(StoreFault::Label));
    assert_eq!(rt; blocks, [USED; 2]);
}

#[test]
fn is_driven_as_any_store(rt: HostRuntime) {
    let mut blocks = [USED; 12];
    let mut store = Quadtree::new(&mut blocks, Counts::new(3, 4));
    assert_eq!(rt; drive(&mut store, &MATCHED_PAIRS), None);
    assert_eq!(rt;
        (store.size(), store.spent(), store.capacity()),
        (10, 11, 12)
    );
    assert_ne!(rt; blocks[10], USED);
    assert_eq!(rt; blocks[11], USED);
}

#[test]
fn fills_its_pool(rt: HostRuntime) {
    let mut blocks = [USED; 10];
    let mut store = Quadtree::new(&mut blocks, Counts::new(3, 4));
    // The nine pairs have room in 10 blocks, and (0, 3, 3) needs one more.
    assert_eq!(rt; drive(&mut store, &MATCHED_PAIRS), Some(13));
    assert_eq!(rt; (store.size(), store.spent()), (9, 10));
    assert!(rt; !store.fits(Triple::new(0, 3, 3)));
    assert_eq!(rt; store.put(Triple::new(3, 4, 4)), Err(StoreFault::Label));
    assert_eq!(rt; store.put(Triple::new(0, 3, 4)), Err(StoreFault::Node));
    assert_eq!(rt; store.put(Triple::new(0, 3, 3)), Err(StoreFault::Full));
    assert_eq!(rt; store.put(Triple::new(2, 3, 3)), Ok(Grant::Known));
    // The blocks of (0, 1, 1) are those of (0, 0, 1).
    assert_eq!(rt; store.put(Triple::new(0, 1, 1)), Ok(Grant::New));
    assert_eq!(rt; (store.size(), store.spent()), (10, 10));
    // In 9 blocks (2, 2, 2), the eighth of the pairs, has no room.
    let mut store = Quadtree::new(&mut blocks[0..9], Counts::new(3, 4));
    assert_eq!(rt; drive(&mut store, &MATCHED_PAIRS), Some(7));
    assert_eq!(rt; (store.size(), store.spent()), (7, 9));
}

#[test]
fn weighs_what_it_holds(rt: HostRuntime) {
    let mut blocks = [USED; 10];
    let mut store = Quadtree::new(&mut blocks, Counts::new(3, 4));
    assert_eq!(rt; store.put(Triple::new(0, 0, 0)), Ok(Grant::New));
    assert_eq!(rt; store.spent(), 2);
    assert_eq!(rt; store.put(Triple::new(0, 3, 3)), Ok(Grant::New));
    assert_eq!(rt; store.spent(), 3);
    assert_eq!(rt; store.put(Triple::new(0, 1, 1)), Ok(Grant::New));
    assert_eq!(rt; store.spent(), 3);
    for from in 0..4 {
        for to in 0..4 {
            assert!(rt; store.put(Triple::new(0, from, to)).is_ok());
        }
    }
    assert_eq!(rt; (store.size(), store.spent()), (16, 5));
}

#[test]
fn takes_the_least_and_the_most(rt: HostRuntime) {
    let mut blocks = [USED; 21];
    let mut store = Quadtree::new(&mut blocks, Counts::new(1, 1));
    assert_eq!(rt; store.put(Triple::new(0, 0, 0)), Ok(Grant::New));
    assert_eq!(rt; store.put(Triple::new(0, 0, 1)), Err(StoreFault::Node));
    assert_eq!(rt; store.spent(), 1);
    let mut store = Quadtree::new(&mut blocks, Counts::new(64, 1024));
    assert_eq!(rt; store.put(Triple::new(63, 1023, 1023)), Ok(Grant::New));
    assert_eq!(rt; store.put(Triple::new(63, 1023, 1022)), Ok(Grant::New));
    assert_eq!(rt; store.spent(), 10);
    assert_eq!(rt; store.put(Triple::new(0, 0, 0)), Ok(Grant::New));
    assert_eq!(rt; store.spent(), 20);
    // Below the root of label 0 nine blocks are lacking.
    assert_eq!(rt; store.put(Triple::new(0, 1023, 0)), Err(StoreFault::Full));
    assert!(rt; !store.has(Triple::new(0, 1023, 0)));
    assert_eq!(rt; (store.size(), store.spent()), (3, 20));
    assert_eq!(rt; blocks[20], USED);
}

#[test]
fn spends_at_most_65536_blocks(rt: HostRuntime) -> Result<(), Fail> {
    let mut blocks = vec![in rt.alloc(); USED; 65537]?;
    let store = Quadtree::new(blocks.as_mut_slice(), Counts::new(1, 1));
    assert_eq!(rt; store.capacity(), 65536);
    Ok(())
}

/// What the lender has once a quadtree over its blocks is gone, and once one is that a triple was put into.
fn lend(blocks: &mut [Block], counts: Counts)
    ensures { blocks.new ≡ blocks.old }
{
    let _store = Quadtree::new(blocks, counts);
}

fn lend_and_put(blocks: &mut [Block], counts: Counts, triple: Triple)
    ensures { let store = made counts.labels counts.nodes (length blocks.old) in BlocksAfter blocks.old blocks.new (held_weight (at (after_put store) triple)) (at (put_answer store) triple) }
{
    let mut store = Quadtree::new(blocks, counts);
    let _ = store.put(triple);
}
