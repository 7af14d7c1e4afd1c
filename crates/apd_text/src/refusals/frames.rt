//! Notes on frames: `L note N`.

use crate::refusals::page::Explanation;

const NO_CURE: &str = "Nothing is to be done: the frame is passed over, and nothing changes.";

pub(crate) static EXPLANATIONS: [Explanation; 7] = [
    Explanation {
        number: 50,
        title: "the frame is too short",
        meaning: "It ends within its header.",
        habit: "It was cut on its way here.",
        programs: None,
        cure: NO_CURE,
    },
    Explanation {
        number: 51,
        title: "the frame has another version",
        meaning: "The protocol version is not 0.",
        habit: "It is damaged.",
        programs: None,
        cure: NO_CURE,
    },
    Explanation {
        number: 52,
        title: "the frame is of a kind that is not handled",
        meaning: "Its type, subtype, category or action is not one of those that this access point reads.",
        habit: "A capture also has beacons, probes, power saving and other kinds.",
        programs: None,
        cure: NO_CURE,
    },
    Explanation {
        number: 53,
        title: "a field of the frame has a value that is reserved or not handled",
        meaning: "Flags for fragments, encryption, or a header that is not read; a TID above 7; reserved bits.",
        habit: "It is encrypted, a fragment, or an aggregate.",
        programs: None,
        cure: NO_CURE,
    },
    Explanation {
        number: 54,
        title: "an element is cut",
        meaning: "An element says that it is longer than what is left of the frame.",
        habit: "The frame is damaged, or its check sequence follows it.",
        programs: None,
        cure: NO_CURE,
    },
    Explanation {
        number: 55,
        title: "the frame has the wrong length",
        meaning: "Its body is shorter than its fields, longer where nothing may follow them, or the whole is above \
2400 bytes.",
        habit: "It was cut, or its check sequence follows it.",
        programs: None,
        cure: NO_CURE,
    },
    Explanation {
        number: 56,
        title: "the frame is not for this access point",
        meaning: "Its receiver or its BSSID is another, or its sender is a group address.",
        habit: "The configuration has another BSSID than the capture.",
        programs: None,
        cure: "If all frames get it: see that `bssid` is that of the capture.",
    },
];
