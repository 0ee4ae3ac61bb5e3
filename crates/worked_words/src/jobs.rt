//! Nets with their words and feeds that are unrolled beside the plain program of jobs.
use net_words::Source;

/// A net in BLIF with the words of a text and feeds.
pub(crate) struct Job {
    pub(crate) name: &'static str,
    pub(crate) net: &'static [u8],
    pub(crate) words: &'static str,
    pub(crate) feeds: &'static [(u32, &'static str, u32, Source)],
}

const LOW: Source = Source::Bit { word: 0, place: 0 };

const HIGH: Source = Source::Bit { word: 0, place: 1 };

/// In `kept`, a latch starts with 1 and keeps it, and one is read by the output word itself. In `fed`, two nets are fed
/// bits of one word and a constant, one of them past the last cycle, and a third one reaches nothing. In `mixed`, a
/// register in a state word moves on, beside a fed net.
pub(crate) static JOBS: [Job; 6] = [
    Job {
        name: "shift",
        net: b"\
            .model shift\n\
            .inputs a0 a1 b0 b1\n\
            .outputs z0 z1\n\
            .latch a0 p0 0\n\
            .latch a1 p1 1\n\
            .latch p0 q0 1\n\
            .latch p1 q1 0\n\
            .names q0 b0 z0\n10 1\n01 1\n\
            .names q1 b1 z1\n11 1\n",
        words: "I0 a0 a1; I1 b0 b1; O2 z0 z1",
        feeds: &[],
    },
    Job {
        name: "counter",
        net: b"\
            .model counter\n\
            .inputs b0 b1\n\
            .outputs z0 z1\n\
            .latch n0 c0 3\n\
            .latch n1 c1\n\
            .names c0 n0\n0 1\n\
            .names c0 c1 n1\n10 1\n01 1\n\
            .names c0 b0 z0\n11 1\n\
            .names c1 b1 z1\n10 1\n01 1\n",
        words: "S0 c0 c1; I1 b0 b1; O2 z0 z1",
        feeds: &[],
    },
    Job {
        name: "kept",
        net: b"\
            .model kept\n\
            .inputs a0 a1 b0 b1\n\
            .outputs z0 q\n\
            .latch k k 1\n\
            .latch a0 q 0\n\
            .names k b0 z0\n11 1\n",
        words: "I0 a0 a1; I1 b0 b1; O2 z0 q",
        feeds: &[],
    },
    Job {
        name: "fed",
        net: b"\
            .model fed\n\
            .inputs d e u b0 b1\n\
            .outputs z0 z1\n\
            .latch n0 z0 0\n\
            .latch n1 z1 1\n\
            .names d z1 n0\n10 1\n01 1\n\
            .names e z0 b0 n1\n100 1\n010 1\n001 1\n111 1\n",
        words: "F0; I1 b0 b1; O2 z0 z1",
        feeds: &[
            (6, "d", 0, HIGH),
            (6, "e", 1, LOW),
            (6, "d", 2, Source::One),
            (6, "u", 1, HIGH),
            (6, "e", 0, HIGH),
            (6, "d", 9, LOW),
        ],
    },
    Job {
        name: "serial",
        net: b"\
            .model serial\n\
            .inputs b0 b1 d\n\
            .outputs z0 z1\n\
            .latch w2 z0 0\n\
            .latch w4 z1 0\n\
            .names d b0 w0\n11 1\n\
            .names d b1 w1\n11 1\n\
            .names z1 w0 w2\n10 1\n01 1\n\
            .names z0 z1 w3\n10 1\n01 1\n\
            .names w3 w1 w4\n10 1\n01 1\n",
        words: "F0; I1 b0 b1; O2 z0 z1",
        feeds: &[(6, "d", 0, HIGH), (6, "d", 1, LOW)],
    },
    Job {
        name: "mixed",
        net: b"\
            .model mixed\n\
            .inputs e\n\
            .outputs z0 c1\n\
            .latch n0 c0 3\n\
            .latch c0 c1 3\n\
            .names c0 c1 n0\n10 1\n01 1\n\
            .names c0 e z0\n10 1\n01 1\n",
        words: "S0 c0 c1; F1; O2 z0 c1",
        feeds: &[
            (6, "e", 0, Source::Bit { word: 1, place: 1 }),
            (6, "e", 1, Source::Bit { word: 1, place: 0 }),
            (6, "e", 3, Source::One),
        ],
    },
];
