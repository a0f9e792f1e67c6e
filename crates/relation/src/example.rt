//! A script for the tests of every store.

use crate::answer::{Grant, StoreFault};
use crate::script::Put;
use graph::Triple;

/// A script for any store of three labels and four nodes that holds nothing yet and has room for ten triples: the nine of the matched pairs, refusals in their order, and one triple more.
pub const MATCHED_PAIRS: [Put; 15] = [
    // Spelled out, since the value of a constant holds no call.
    // The edges of the graph of matched pairs: a is label 0, and b is label 1.
    Put {
        triple: Triple {
            label: 0,
            from: 0,
            to: 1,
        },
        expected: Ok(Grant::New),
    },
    Put {
        triple: Triple {
            label: 0,
            from: 1,
            to: 2,
        },
        expected: Ok(Grant::New),
    },
    Put {
        triple: Triple {
            label: 1,
            from: 2,
            to: 3,
        },
        expected: Ok(Grant::New),
    },
    Put {
        triple: Triple {
            label: 1,
            from: 3,
            to: 0,
        },
        expected: Ok(Grant::New),
    },
    // What S, label 2, has beside them.
    Put {
        triple: Triple {
            label: 2,
            from: 0,
            to: 0,
        },
        expected: Ok(Grant::New),
    },
    Put {
        triple: Triple {
            label: 2,
            from: 1,
            to: 1,
        },
        expected: Ok(Grant::New),
    },
    Put {
        triple: Triple {
            label: 2,
            from: 1,
            to: 3,
        },
        expected: Ok(Grant::New),
    },
    Put {
        triple: Triple {
            label: 2,
            from: 2,
            to: 2,
        },
        expected: Ok(Grant::New),
    },
    Put {
        triple: Triple {
            label: 2,
            from: 3,
            to: 3,
        },
        expected: Ok(Grant::New),
    },
    // A triple that is held; a label out of range, before its nodes; a node out of range, at either end.
    Put {
        triple: Triple {
            label: 2,
            from: 1,
            to: 3,
        },
        expected: Ok(Grant::Known),
    },
    Put {
        triple: Triple {
            label: 3,
            from: 4,
            to: 4,
        },
        expected: Err(StoreFault::Label),
    },
    Put {
        triple: Triple {
            label: 0,
            from: 4,
            to: 0,
        },
        expected: Err(StoreFault::Node),
    },
    Put {
        triple: Triple {
            label: 0,
            from: 0,
            to: 4,
        },
        expected: Err(StoreFault::Node),
    },
    // The last node is in range.
    Put {
        triple: Triple {
            label: 0,
            from: 3,
            to: 3,
        },
        expected: Ok(Grant::New),
    },
    Put {
        triple: Triple {
            label: 0,
            from: 3,
            to: 3,
        },
        expected: Ok(Grant::Known),
    },
];
