// The table of known pairs. Its texts, domains and verdicts are those of the list in the specs.
use super::pair::{DomainName, KnownPair};
use validator::{Mismatch, Reason, Verdict};

// No rows.
const BARE: &[u8] = b"M\tdone\t0002\nE\tdone\n";

const END: &[u8] = b"E\tdone\n";
// Two registers are compared, an exit leaves for `busy` where they are equal, and below it a cell is stored to.
const BOOKING: &[u8] =
    b"M\tbusy\t0000\nM\tdone\t0002\nO\t5\t2\t3\t4\nX\t2\tbusy\nS\t1\t5\t6\nI\t1\t7\nE\tdone\n";

const LITERAL_LIFTED: &[u8] = b"I\t1\t7\nO\t5\t2\t3\t4\nX\t2\tbusy\nS\t1\t5\t6\nE\tdone\n";

const STORE_LIFTED: &[u8] = b"O\t5\t2\t3\t4\nS\t1\t5\t6\nX\t2\tbusy\nI\t1\t7\nE\tdone\n";
// One operation, and its operands exchanged.
const ADD: &[u8] = b"M\tdone\t0002\nO\t0\t1\t3\t4\nE\tdone\n";

const ADD_TURNED: &[u8] = b"O\t0\t1\t4\t3\nE\tdone\n";

const SUB: &[u8] = b"M\tdone\t0002\nO\t1\t1\t3\t4\nE\tdone\n";

const SUB_TURNED: &[u8] = b"O\t1\t1\t4\t3\nE\tdone\n";
// An addition below an exit, and above it.
const EXIT_ADD: &[u8] = b"M\tbusy\t0000\nM\tdone\t0002\nX\t2\tbusy\nO\t0\t1\t3\t4\nE\tdone\n";

const ADD_LIFTED: &[u8] = b"O\t0\t1\t3\t4\nX\t2\tbusy\nE\tdone\n";
// A literal below a join, and above it: without its copy, and with it.
const JOIN_LITERAL: &[u8] = b"M\tdone\t0002\nJ\nI\t1\t7\nE\tdone\n";

const LITERAL_JOIN: &[u8] = b"I\t1\t7\nJ\nE\tdone\n";

const LITERAL_RAISED: &[u8] = b"I\t1\t7\nJ\nE\tdone\nQ\t1\nI\t1\t7\n";
// One join and nothing else.
const JOIN: &[u8] = b"M\tdone\t0002\nJ\nE\tdone\n";

const STORE_DIFFERS: Verdict = Verdict::Failed(Mismatch {
    entry: 0,
    stop: 1,
    reason: Reason::Bank,
    number: 1,
});

const OPERANDS_DIFFER: Verdict = Verdict::Failed(Mismatch {
    entry: 0,
    stop: 1,
    reason: Reason::Register,
    number: 1,
});

const TRAPS_DIFFER: Verdict = Verdict::Failed(Mismatch {
    entry: 0,
    stop: 1,
    reason: Reason::Traps,
    number: 0,
});

const COPY_MISSING: Verdict = Verdict::Failed(Mismatch {
    entry: 1,
    stop: 1,
    reason: Reason::Register,
    number: 1,
});

const JOINS_DIFFER: Verdict = Verdict::Failed(Mismatch {
    entry: 0,
    stop: 0,
    reason: Reason::Joins,
    number: 0,
});

pub(crate) const PAIRS: [KnownPair; 16] = [
    KnownPair {
        source: BARE,
        schedule: END,
        domain: DomainName::Wrapping,
        verdict: Verdict::Passed,
    },
    KnownPair {
        source: BARE,
        schedule: END,
        domain: DomainName::Trapping,
        verdict: Verdict::Passed,
    },
    KnownPair {
        source: BOOKING,
        schedule: LITERAL_LIFTED,
        domain: DomainName::Wrapping,
        verdict: Verdict::Passed,
    },
    KnownPair {
        source: BOOKING,
        schedule: STORE_LIFTED,
        domain: DomainName::Wrapping,
        verdict: STORE_DIFFERS,
    },
    KnownPair {
        source: BOOKING,
        schedule: STORE_LIFTED,
        domain: DomainName::Trapping,
        verdict: STORE_DIFFERS,
    },
    KnownPair {
        source: ADD,
        schedule: ADD_TURNED,
        domain: DomainName::Wrapping,
        verdict: Verdict::Passed,
    },
    KnownPair {
        source: SUB,
        schedule: SUB_TURNED,
        domain: DomainName::Wrapping,
        verdict: OPERANDS_DIFFER,
    },
    KnownPair {
        source: SUB,
        schedule: SUB_TURNED,
        domain: DomainName::Trapping,
        verdict: OPERANDS_DIFFER,
    },
    KnownPair {
        source: EXIT_ADD,
        schedule: ADD_LIFTED,
        domain: DomainName::Wrapping,
        verdict: Verdict::Passed,
    },
    KnownPair {
        source: EXIT_ADD,
        schedule: ADD_LIFTED,
        domain: DomainName::Trapping,
        verdict: TRAPS_DIFFER,
    },
    KnownPair {
        source: JOIN_LITERAL,
        schedule: LITERAL_JOIN,
        domain: DomainName::Wrapping,
        verdict: COPY_MISSING,
    },
    KnownPair {
        source: JOIN_LITERAL,
        schedule: LITERAL_JOIN,
        domain: DomainName::Trapping,
        verdict: COPY_MISSING,
    },
    KnownPair {
        source: JOIN_LITERAL,
        schedule: LITERAL_RAISED,
        domain: DomainName::Wrapping,
        verdict: Verdict::Passed,
    },
    KnownPair {
        source: JOIN_LITERAL,
        schedule: LITERAL_RAISED,
        domain: DomainName::Trapping,
        verdict: Verdict::Passed,
    },
    KnownPair {
        source: JOIN,
        schedule: END,
        domain: DomainName::Wrapping,
        verdict: JOINS_DIFFER,
    },
    KnownPair {
        source: JOIN,
        schedule: END,
        domain: DomainName::Trapping,
        verdict: JOINS_DIFFER,
    },
];
