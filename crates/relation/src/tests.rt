ghost use Rattle.relation.specs.KeepsNothing.{keeps_nothing, keeps_nothing_lawful};

use super::*;
use graph::{Counts, Numbered, RangeFault, Refusal, Triple};

/// A store of one label and one node that has no room for its one triple.
#[derive(Drop)]
struct KeepsNothing;

impl Store for KeepsNothing {
    ghost meaning = { λ _. keeps_nothing };

    ghost lawful = { λ _. keeps_nothing_lawful };

    fn labels(&self) -> u8 {
        1
    }

    fn nodes(&self) -> u16 {
        1
    }

    fn size(&self) -> u32 {
        0
    }

    fn spent(&self) -> u64 {
        0
    }

    fn capacity(&self) -> u64 {
        0
    }

    fn has(&self, _triple: Triple) -> bool {
        false
    }

    fn fits(&self, _triple: Triple) -> bool {
        false
    }

    fn put(&mut self, triple: Triple) -> Result<Grant, StoreFault> {
        Counts::new(1, 1).check(triple)?;
        Err(StoreFault::Full)
    }
}

/// The put of the triple of a label and two nodes.
fn put(label: u8, from: u16, to: u16, expected: Result<Grant, StoreFault>) -> Put {
    Put {
        triple: Triple::new(label, from, to),
        expected,
    }
}

#[test]
fn numbers_the_answers(rt: HostRuntime) {
    let granted = [(Grant::Known, 0), (Grant::New, 1)];
    for (grant, number) in granted {
        let answer: Result<Grant, StoreFault> = Ok(grant);
        assert_eq!(rt; (grant.number(), answer.number()), (number, number));
    }
    let refused = [
        (StoreFault::Label, 6),
        (StoreFault::Node, 8),
        (StoreFault::Full, 9),
    ];
    for (fault, number) in refused {
        let answer: Result<Grant, StoreFault> = Err(fault);
        assert_eq!(rt; (fault.number(), answer.number()), (number, number));
    }
}

#[test]
fn names_the_refusals(rt: HostRuntime) {
    assert_eq!(rt; Refusal::from(StoreFault::Label), Refusal::Label);
    assert_eq!(rt; Refusal::from(StoreFault::Node), Refusal::Node);
    assert_eq!(rt; Refusal::from(StoreFault::Full), Refusal::Full);
}

#[test]
fn tells_what_is_out_of_range(rt: HostRuntime) {
    assert_eq!(rt; StoreFault::from(RangeFault::Label), StoreFault::Label);
    assert_eq!(rt; StoreFault::from(RangeFault::Node), StoreFault::Node);
}

#[test]
fn drives_a_store_that_keeps_nothing(rt: HostRuntime) {
    let script = [
        put(0, 0, 0, Err(StoreFault::Full)),
        put(1, 1, 0, Err(StoreFault::Label)),
        put(0, 1, 0, Err(StoreFault::Node)),
        put(0, 0, 1, Err(StoreFault::Node)),
        put(0, 0, 0, Ok(Grant::New)),
        put(0, 0, 0, Ok(Grant::Known)),
    ];
    assert_eq!(rt; drive(&mut KeepsNothing, &[]), None);
    assert_eq!(rt; drive(&mut KeepsNothing, &script[0..4]), None);
    assert_eq!(rt; drive(&mut KeepsNothing, &script), Some(4));
    assert_eq!(rt; drive(&mut KeepsNothing, &script[5..6]), Some(0));
}
