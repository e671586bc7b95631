//! The scenes: a datagram of each kind at a peer that takes it, and some that are refused. Another program made the
//! bytes, by docs/FORMATS.md.
use crate::scene::{Before, Scene, Step, Text};
use c8_hand::HandError;
use c8_known::KnownError;
use c8_peer::{Heard, Refused};

/// WELCOME of player 1 to player 2. It acknowledges the two inputs of the delay.
#[rattlefmt::skip]
const WELCOME_OF_ONE: Text = (
    "43380102104023b9c4743fd701020004000000050000000100000002",
    "43380202627827b6fff3081301020004000000050000000100000002",
);

/// HELLO of player 3 to player 2, whose epoch it does not know: the link stays closed.
#[rattlefmt::skip]
const HELLO_OF_THREE: Text = (
    "43380101104023b9c4743fd7030200000000000500000000",
    "43380201627827b6fff30813030200000000000500000000",
);

/// WELCOME of player 3 to player 2.
#[rattlefmt::skip]
const WELCOME_OF_THREE: Text = (
    "43380102104023b9c4743fd703020004000000050000000100000002",
    "43380202627827b6fff3081303020004000000050000000100000002",
);

/// DATA of player 1 to player 2: frames 2 to 5.
#[rattlefmt::skip]
const DATA_OF_ONE: Text = (
    "43380103104023b9c4743fd70102001e00000005000000010000000200000000040d1a00552be44e0000000200040100010101010101",
    "43380203627827b6fff308130102001c00000005000000010000000200000000040d1a00552be44e000000020004010100030101",
);

/// DATA of player 3 to player 2: frames 2 to 4.
#[rattlefmt::skip]
const DATA_OF_THREE: Text = (
    "43380103104023b9c4743fd70302001c00000005000000010000000200000000040d1a00552be44e000000020003030003010301",
    "43380203627827b6fff308130302001c00000005000000010000000200000000040d1a00552be44e000000020003010300020301",
);

/// FREEZE of player 3, from player 1 to player 2.
#[rattlefmt::skip]
const FREEZE: Text = (
    "43380104104023b9c4743fd7010200060000000500000001030000000004",
    "43380204627827b6fff30813010200060000000500000001030000000004",
);

/// WELCOME of player 2 to player 1.
#[rattlefmt::skip]
const WELCOME_TO_ONE: Text = (
    "43380102104023b9c4743fd702010004000000050000000100000002",
    "43380202627827b6fff3081302010004000000050000000100000002",
);

/// WELCOME of player 3 to player 1.
#[rattlefmt::skip]
const THIRD_WELCOME: Text = (
    "43380102104023b9c4743fd703010004000000050000000100000002",
    "43380202627827b6fff3081303010004000000050000000100000002",
);

/// DATA of player 2 to player 1: frames 2 to 5.
#[rattlefmt::skip]
const DATA_TO_ONE: Text = (
    "43380103104023b9c4743fd70201001e00000005000000010000000200000000040d1a00552be44e0000000200040200020102010201",
    "43380203627827b6fff308130201001c00000005000000010000000200000000040d1a00552be44e000000020004010200030201",
);

/// DATA of player 3 to player 1: frames 2 to 4.
#[rattlefmt::skip]
const THIRD_DATA: Text = (
    "43380103104023b9c4743fd70301001c00000005000000010000000200000000040d1a00552be44e000000020003030003010301",
    "43380203627827b6fff308130301001c00000005000000010000000200000000040d1a00552be44e000000020003010300020301",
);

/// Player 2 holds six inputs of player 1 and five of its own.
static MET: [Step; 6] = [
    Step::Hear(WELCOME_OF_ONE),
    Step::Hear(HELLO_OF_THREE),
    Step::Hear(DATA_OF_ONE),
    Step::Tick,
    Step::Tick,
    Step::Tick,
];

/// Player 2 holds five inputs of player 3 too, whom player 1 drops.
static FROZE: [Step; 8] = [
    Step::Hear(WELCOME_OF_ONE),
    Step::Hear(WELCOME_OF_THREE),
    Step::Hear(DATA_OF_ONE),
    Step::Hear(DATA_OF_THREE),
    Step::Tick,
    Step::Tick,
    Step::Tick,
    Step::Hear(FREEZE),
];

/// Player 1 holds six inputs of player 2, five of player 3, whom it drops, and five of its own.
static DROPS: [Step; 8] = [
    Step::Hear(WELCOME_TO_ONE),
    Step::Hear(THIRD_WELCOME),
    Step::Hear(DATA_TO_ONE),
    Step::Hear(THIRD_DATA),
    Step::Tick,
    Step::Tick,
    Step::Tick,
    Step::Leave,
];

/// HELLO of player 1 to player 2, in the epochs that both know.
#[rattlefmt::skip]
const HELLO: Text = (
    "43380101104023b9c4743fd7010200000000000500000001",
    "43380201627827b6fff30813010200000000000500000001",
);

/// WELCOME of player 1 to player 2.
#[rattlefmt::skip]
const WELCOME: Text = (
    "43380102104023b9c4743fd701020004000000050000000100000004",
    "43380202627827b6fff3081301020004000000050000000100000004",
);

/// DATA of player 1 to player 2: frames 4 to 7.
#[rattlefmt::skip]
const DATA: Text = (
    "43380103104023b9c4743fd70102001e00000005000000010000000400000000040d1a00552be44e0000000400040101010101020102",
    "43380203627827b6fff308130102001c00000005000000010000000400000000040d1a00552be44e000000040004020101020102",
);

/// DATA of player 3 to player 2: frames 4 to 7.
#[rattlefmt::skip]
const DATA_OF_LEAVER: Text = (
    "43380103104023b9c4743fd70302001e00000005000000010000000400000000040d1a00552be44e0000000400040301030103020302",
    "43380203627827b6fff308130302001c00000005000000010000000400000000040d1a00552be44e000000040004020301020302",
);

/// FROZEN of player 3, from player 2 to player 1: frames 4 to 6 of seven.
#[rattlefmt::skip]
const FROZEN: Text = (
    "43380105104023b9c4743fd7020100120000000500000001030000000007000000040003030103010302",
    "43380205627827b6fff30813020100120000000500000001030000000007000000040003020301010302",
);

/// CUT of player 3 at seven inputs, from player 1 to player 2: frames 4 to 6.
#[rattlefmt::skip]
const CUT: Text = (
    "43380106104023b9c4743fd7010200120000000500000001030000000007000000040003030103010302",
    "43380206627827b6fff30813010200120000000500000001030000000007000000040003020301010302",
);

/// CUT of player 2 at five inputs, from player 1 to player 2.
#[rattlefmt::skip]
const CUT_OF_TWO: Text = (
    "43380106104023b9c4743fd70102000e00000005000000010200000000050000000400010201",
    "43380206627827b6fff308130102000f0000000500000001020000000005000000040001010201",
);

/// SHOW of player 1 to watcher 5: rows 1 and 2.
#[rattlefmt::skip]
const SHOW: Text = (
    "43380107104023b9c4743fd701050016000000010000000000000001000200000000000000000100020003000000",
    "43380207627827b6fff3081301050016000000010000000000000001000200000000000000000100020003000000",
);

/// SEEN of watcher 5 to player 1: two rows.
#[rattlefmt::skip]
const SEEN: Text = (
    "43380108104023b9c4743fd705010004000000000000000000000002",
    "43380208627827b6fff3081305010004000000000000000000000002",
);

/// Returns what the peer of a scene does before the datagram comes.
pub(crate) fn steps(before: Before) -> &'static [Step] {
    match before {
        Before::Met => &MET,
        Before::Froze => &FROZE,
        Before::Drops => &DROPS,
    }
}

const KEPT: Result<Heard, Refused> = Ok(Heard::Kept);

const NOTHING: Result<Heard, Refused> = Ok(Heard::Nothing);

const NOT_MINE: Result<Heard, Refused> = Err(Refused::Hand(HandError::NotMine));

const FROM_LEAVER: Result<Heard, Refused> = Err(Refused::Known(KnownError::FromLeaver));

/// At player 2.
const TWO: Scene = Scene {
    me: 2,
    before: Before::Met,
    players: [(6, true), (5, false), (2, false)],
    confirmed: 2,
    frozen: 0,
    said: HELLO,
    answer: NOTHING,
};

/// At player 2, who knows that player 1 drops player 3.
const FROZEN_AT_TWO: Scene = Scene {
    before: Before::Froze,
    players: [(6, true), (5, false), (5, true)],
    confirmed: 3,
    frozen: 3,
    ..TWO
};

/// At player 1, who drops player 3.
const ONE: Scene = Scene {
    me: 1,
    before: Before::Drops,
    players: [(5, false), (6, true), (5, true)],
    confirmed: 3,
    frozen: 3,
    said: SEEN,
    answer: NOTHING,
};

#[rattlefmt::skip]
static SCENES: [Scene; 10] = [
    TWO,
    Scene { said: WELCOME, ..TWO },
    Scene { said: DATA, answer: KEPT, ..TWO },
    Scene { said: DATA_OF_LEAVER, answer: FROM_LEAVER, ..FROZEN_AT_TWO },
    Scene { said: FREEZE, answer: KEPT, ..TWO },
    Scene { said: FROZEN, answer: KEPT, ..ONE },
    Scene { said: CUT, answer: KEPT, ..FROZEN_AT_TWO },
    Scene { said: CUT_OF_TWO, answer: Ok(Heard::Out), ..TWO },
    Scene { said: SHOW, answer: NOT_MINE, ..TWO },
    ONE,
];

/// Lends all scenes. It has no contract, so what walks them is proved for any scenes.
pub(crate) fn scenes() -> &'static [Scene] {
    &SCENES
}
