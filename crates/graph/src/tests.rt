use super::*;

#[test]
fn numbers_the_refusals(rt: HostRuntime) {
    let numbered = [
        (Refusal::Counts, 1),
        (Refusal::Memory, 2),
        (Refusal::Shape, 3),
        (Refusal::Match, 4),
        (Refusal::Long, 5),
        (Refusal::Label, 6),
        (Refusal::Rules, 7),
        (Refusal::Node, 8),
        (Refusal::Full, 9),
        (Refusal::Short, 10),
    ];
    for (refusal, number) in numbered {
        assert_eq!(rt; refusal.number(), number);
    }
}

#[test]
fn numbers_the_answers(rt: HostRuntime) {
    let granted: Result<(), FitFault> = Ok(());
    assert_eq!(rt; granted.number(), 0);
    let refused: Result<(), FitFault> = Err(FitFault::Memory);
    assert_eq!(rt; refused.number(), 2);
    assert_eq!(rt;
        [FitFault::Counts.number(), FitFault::Memory.number()],
        [1, 2]
    );
    assert_eq!(rt; Refusal::from(RangeFault::Label), Refusal::Label);
    assert_eq!(rt; Refusal::from(RangeFault::Node), Refusal::Node);
}

#[test]
fn counts_fit_from_one_on(rt: HostRuntime) {
    let cases = [
        (1, 1, Ok(())),
        (0, 1, Err(FitFault::Counts)),
        (1, 0, Err(FitFault::Counts)),
        (64, 1024, Ok(())),
        (65, 1024, Err(FitFault::Counts)),
        (64, 1025, Err(FitFault::Counts)),
    ];
    for (labels, nodes, expected) in cases {
        assert_eq!(rt; Counts::new(labels, nodes).fit(), expected);
    }
}

#[test]
fn looks_at_the_label_first(rt: HostRuntime) {
    let cases = [
        (0, 0, 0, Ok(())),
        (2, 3, 3, Ok(())),
        (3, 4, 4, Err(RangeFault::Label)),
        (2, 4, 0, Err(RangeFault::Node)),
        (2, 0, 4, Err(RangeFault::Node)),
    ];
    for (label, from, to, expected) in cases {
        let triple = Triple::new(label, from, to);
        assert_eq!(rt; Counts::new(3, 4).check(triple), expected);
        assert_eq!(rt; Counts::new(3, 4).covers(triple), expected.is_ok());
    }
}

#[test]
fn tells_items_from_bytes(rt: HostRuntime) {
    let items = [
        (0, Ok(Item::Forward(0))),
        (63, Ok(Item::Forward(63))),
        (64, Err(Refusal::Label)),
        (127, Err(Refusal::Label)),
        (128, Ok(Item::Reversed(0))),
        (191, Ok(Item::Reversed(63))),
        (192, Err(Refusal::Label)),
        (255, Err(Refusal::Label)),
    ];
    for (byte, item) in items {
        assert_eq!(rt; Item::try_from(byte), item);
    }
}

#[test]
fn gives_bytes_to_items(rt: HostRuntime) {
    let bytes = [
        (Item::Forward(0), Ok(0)),
        (Item::Forward(63), Ok(63)),
        (Item::Forward(64), Err(Refusal::Label)),
        (Item::Forward(255), Err(Refusal::Label)),
        (Item::Reversed(0), Ok(128)),
        (Item::Reversed(63), Ok(191)),
        (Item::Reversed(64), Err(Refusal::Label)),
        (Item::Reversed(255), Err(Refusal::Label)),
    ];
    for (item, byte) in bytes {
        assert_eq!(rt; u8::try_from(item), byte);
    }
}
