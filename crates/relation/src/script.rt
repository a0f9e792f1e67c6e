//! A routine that drives any store by a script of puts.

ghost use Rattle.std.specs.Prelude.{◌≡◌, ◌↔◌, IsTrue};
ghost use Rattle.relation.specs.Driving.{seen, Consistent, as_expected, after_one, first_wrong, driven};

use crate::answer::{Grant, StoreFault};
use crate::store::Store;
use graph::{Counts, Numbered, Triple};

/// One put of a script, and the answer that is expected of it.
#[derive(Clone, Copy, Debug, PartialEq, Eq)]
pub struct Put {
    /// The triple that is put.
    pub triple: Triple,
    /// What the store should answer.
    pub expected: Result<Grant, StoreFault>,
}

/// What the calls of a store that change nothing answer.
#[derive(Clone, Copy, PartialEq)]
struct Seen {
    has: bool,
    fits: bool,
    size: u32,
    spent: u64,
    counts: Counts,
    capacity: u64,
}

/// Asks a store for all that it says of a triple and of itself.
fn look<S: Store>(store: &S, triple: Triple) -> Seen
    ensures { result ≡ seen (S.meaning store.now) triple }
{
    Seen {
        has: store.has(triple),
        fits: store.fits(triple),
        size: store.size(),
        spent: store.spent(),
        counts: Counts::new(store.labels(), store.nodes()),
        capacity: store.capacity(),
    }
}

/// Whether what was seen before and after a put goes with its answer.
fn consistent(before: &Seen, answer: Result<Grant, StoreFault>, after: &Seen) -> bool
    ensures { IsTrue result ↔ Consistent answer before.now after.now }
{
    let goes_with = match answer {
        Ok(Grant::New) => {
            !before.has
                && before.fits
                && after.has
                && u64::from(after.size) == u64::from(before.size) + 1
                && before.spent <= after.spent
                && after.counts == before.counts
                && after.capacity == before.capacity
        }
        Ok(Grant::Known) => before.has && before.fits && after == before,
        Err(_) => !before.has && !before.fits && after == before,
    };
    goes_with && after.spent <= after.capacity
}

/// Makes one put, and says whether its answer is the expected one and goes with all that the store says before and after. The second is proved of every store, so it is not promised here.
fn agrees<S: Store>(store: &mut S, put: &Put) -> bool
    ensures answer { result ≡ as_expected (S.meaning store.old) put.now }
    ensures after { S.meaning store.new ≡ after_one (S.meaning store.old) put.now }
{
    let Put { triple, expected } = *put;
    let before = look(store, triple);
    let answer = store.put(triple);
    let after = look(store, triple);
    consistent(&before, answer, &after) && answer.number() == expected.number()
}

/// Gives a store the puts of a script in order, and makes all its other calls before and after each. Stops at the first put whose answer is not the expected one, and answers its index, or `None`.
pub fn drive<S: Store>(store: &mut S, script: &[Put]) -> Option<usize>
    ensures answer { result ≡ first_wrong (S.meaning store.old) script.now }
    ensures after { S.meaning store.new ≡ driven (S.meaning store.old) script.now }
{
    for (index, put) in script.iter().enumerate() {
        if !agrees(store, put) {
            return Some(index);
        }
    }
    None
}
