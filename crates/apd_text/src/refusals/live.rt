//! Refusals of the running access point.

use crate::refusals::page::Explanation;

pub(crate) static EXPLANATIONS: [Explanation; 4] = [
    Explanation {
        number: 60,
        title: "the program was verified for other maps",
        meaning: "Its maps differ in number, entries, words, width or scope from those that run.",
        habit: "It was verified with another configuration.",
        programs: None,
        cure: "Verify it with the configuration that runs.",
    },
    Explanation {
        number: 61,
        title: "the queue is full",
        meaning: "A worker has 256 events waiting; the event is handed back.",
        habit: "Events come faster than they are served.",
        programs: None,
        cure: "Submit it again.",
    },
    Explanation {
        number: 62,
        title: "all are given out",
        meaning: "There is no further seat, reader, token or publisher.",
        habit: "One was asked for twice.",
        programs: None,
        cure: "Give out each once.",
    },
    Explanation {
        number: 63,
        title: "the station is unknown",
        meaning: "A command names a station that is neither authenticated nor associated.",
        habit: "It has left, or its address is mistyped.",
        programs: None,
        cure: "Nothing has changed.",
    },
];
