//! The members of a setup and of each kind of event: a value of each that is of the form, and what is wanted.

/// A member that an object of the form has.
#[derive(Clone, Copy, Debug, PartialEq, Eq)]
pub(crate) struct Wanted {
    pub(crate) name: &'static str,
    /// A value that is of the form, as JSON.
    pub(crate) sample: &'static str,
    /// What is wanted, in words.
    pub(crate) words: &'static str,
}

/// What `do` may be.
pub(crate) const KINDS: &str =
    "\"start\", \"tick\", \"deliver\", \"step\", \"answer\", \"crash\" or \"inject\"";

// What a number is.
const NUMBER: &str = "a whole number from 0, below 2^64";

// The node that an event is of.
const NODE: Wanted = Wanted {
    name: "node",
    sample: "[0,0]",
    words: "[MEMBER, HALF], as [2,0]",
};

// Where a step or a start stops.
const STOP: Wanted = Wanted {
    name: "stop",
    sample: "null",
    words: "null, {\"cut\": CALL, \"keep\": RECORDS} or {\"fail\": CALL, \"keep\": RECORDS}",
};

/// The members of a setup.
pub(crate) const SETUP: [Wanted; 18] = [
    Wanted {
        name: "epoch",
        sample: "0",
        words: "a whole number from 0, below 2^64 - 1",
    },
    Wanted {
        name: "key_base",
        sample: "0",
        words: NUMBER,
    },
    Wanted {
        name: "members",
        sample: "[\"honest\"]",
        words: "a list of kinds: \"honest\", \"silent\", \"conflicter\", \"equivocator\", \"impersonator\", \"nuller\", \"nullify_only\", \"reconfigurer\", \"corrupt\", \"unrecovering\", \"twin\" or {\"outdated\": VIEWS}",
    },
    Wanted {
        name: "term",
        sample: "1",
        words: "a whole number from 1 to 2^32",
    },
    Wanted {
        name: "lookahead",
        sample: "0",
        words: "a whole number from 0 to 2^32",
    },
    Wanted {
        name: "leader_timeout",
        sample: "1",
        words: "milliseconds, a whole number from 1 to 2^62 and at most certification_timeout",
    },
    Wanted {
        name: "certification_timeout",
        sample: "1",
        words: "milliseconds, a whole number from 1 to 2^62",
    },
    Wanted {
        name: "retry",
        sample: "1",
        words: "milliseconds, a whole number from 1 to 2^62",
    },
    Wanted {
        name: "stall",
        sample: "null",
        words: "null or milliseconds, a whole number above certification_timeout, up to 2^62",
    },
    Wanted {
        name: "retention",
        sample: "1",
        words: "a whole number from 1 to 2^32",
    },
    Wanted {
        name: "skip",
        sample: "null",
        words: "null or {\"timeout\": MS, \"budget\": VIEWS}, VIEWS a number or \"participants\"",
    },
    Wanted {
        name: "forward",
        sample: "\"disabled\"",
        words: "\"disabled\", \"voters\" or \"leader\"",
    },
    Wanted {
        name: "mailbox",
        sample: "1",
        words: "a whole number from 1 to 4096",
    },
    Wanted {
        name: "track",
        sample: "false",
        words: "true or false",
    },
    Wanted {
        name: "handoff",
        sample: "false",
        words: "true or false",
    },
    Wanted {
        name: "fetch_timeout",
        sample: "1",
        words: "milliseconds, a whole number from 1 to 2^62",
    },
    Wanted {
        name: "fetch_retry",
        sample: "0",
        words: "milliseconds, a whole number from 0 to 2^62",
    },
    Wanted {
        name: "scenario",
        sample: "[]",
        words: "[] or a list of {\"leader\": MEMBER, \"primary\": MASK, \"secondary\": MASK}",
    },
];

/// Of a start.
const START: [Wanted; 4] = [
    Wanted {
        name: "do",
        sample: "\"start\"",
        words: KINDS,
    },
    NODE,
    Wanted {
        name: "floor",
        sample: "null",
        words: "null or the certificate of a finalization, two lower-case hex digits a byte",
    },
    STOP,
];

/// Of a tick.
const TICK: [Wanted; 2] = [
    Wanted {
        name: "do",
        sample: "\"tick\"",
        words: KINDS,
    },
    Wanted {
        name: "ms",
        sample: "1",
        words: NUMBER,
    },
];

/// Of a delivery.
const DELIVER: [Wanted; 3] = [
    Wanted {
        name: "do",
        sample: "\"deliver\"",
        words: KINDS,
    },
    NODE,
    Wanted {
        name: "packet",
        sample: "[1,0]",
        words: "[EVENT, PLACE], as [5,0]",
    },
];

/// Of a step.
const STEP: [Wanted; 4] = [
    Wanted {
        name: "do",
        sample: "\"step\"",
        words: KINDS,
    },
    NODE,
    Wanted {
        name: "source",
        sample: "\"voter\"",
        words: "\"batcher\", \"voter\", \"timer\", \"propose\", \"verify\", \"certify\", \"resolver\", \"handler\" or \"fetch\"",
    },
    STOP,
];

/// Of an answer.
const ANSWER: [Wanted; 4] = [
    Wanted {
        name: "do",
        sample: "\"answer\"",
        words: KINDS,
    },
    NODE,
    Wanted {
        name: "request",
        sample: "[1,0]",
        words: "[EVENT, PLACE], as [5,0]",
    },
    Wanted {
        name: "answer",
        sample: "\"closed\"",
        words: "{\"payload\": HEX32}, {\"verdict\": true}, {\"verdict\": false}, {\"vote\": HEX32}, {\"stage\": HEX32}, \"wait\" or \"closed\", HEX32 64 lower-case hex digits",
    },
];

/// Of a crash.
const CRASH: [Wanted; 2] = [
    Wanted {
        name: "do",
        sample: "\"crash\"",
        words: KINDS,
    },
    NODE,
];

/// Of an injection.
const INJECT: [Wanted; 5] = [
    Wanted {
        name: "do",
        sample: "\"inject\"",
        words: KINDS,
    },
    Wanted {
        name: "member",
        sample: "0",
        words: NUMBER,
    },
    Wanted {
        name: "channel",
        sample: "\"vote\"",
        words: "\"vote\", \"certificate\" or \"resolver\"",
    },
    Wanted {
        name: "to",
        sample: "[]",
        words: "a list of [MEMBER, HALF]",
    },
    Wanted {
        name: "bytes",
        sample: "\"\"",
        words: "two lower-case hex digits a byte",
    },
];

/// The members of an event of this kind, if there is such a kind.
pub(crate) fn event_table(kind: &str) -> Option<&'static [Wanted]> {
    match kind {
        "start" => Some(&START),
        "tick" => Some(&TICK),
        "deliver" => Some(&DELIVER),
        "step" => Some(&STEP),
        "answer" => Some(&ANSWER),
        "crash" => Some(&CRASH),
        "inject" => Some(&INJECT),
        _ => None,
    }
}
