//! Refusals of a certificate: `certificate N`.

use crate::refusals::page::Explanation;

const CERTIFY: &str = "Make it anew by `apd cert`, with the configuration that is used here.";

pub(crate) static EXPLANATIONS: [Explanation; 3] = [
    Explanation {
        number: 70,
        title: "the certificate is malformed",
        meaning: "Its bytes are not in the format, or hold values that cannot be.",
        habit: "The file was cut or damaged.",
        programs: None,
        cure: CERTIFY,
    },
    Explanation {
        number: 71,
        title: "the certificate is of another program",
        meaning: "It holds another hook or other code than it is checked for.",
        habit: "The program was compiled anew.",
        programs: None,
        cure: CERTIFY,
    },
    Explanation {
        number: 72,
        title: "the certificate does not show that the program is safe",
        meaning: "Some path from one of its states meets a fault, takes longer than the budget it names, or leads \
to a state that it does not have.",
        habit: "It was made for other maps, or by something that is not to be trusted.",
        programs: None,
        cure: CERTIFY,
    },
];
