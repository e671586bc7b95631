//! The progress line.
use c8_game::Player;
use c8_live::{Progress, Standing};
use c8_transport::Relaying;
use std::alloc::Global;
use std::time::Duration;

/// All that a line can have, for player 3 of four. The longest rollback is that of both calls.
const LINE: &[u8] = b"\
    ticked 21, confirmed 19, rollbacks 4, longest 5, player 1 silent for 200 ms, \
    player 2 silent for 1000 ms, player 4 silent for 0 ms, 7 packets lost, 3 packets from elsewhere, \
    2 packets not sealed, 6 packets seen before, relay: no answer for 8 s, the machines differ\n";

/// Whether two calls print that line.
fn is_printed(alloc: Global) -> bool {
    let mut standing = Standing {
        ticked: 21,
        rollbacks: 4,
        longest: 5,
        heard: [2, 0, 3, 1],
        is_alarmed: true,
        lost: 7,
        foreign: 3,
        unsealed: 2,
        repeated: 6,
        relaying: Relaying::Silent(8),
    };
    let mut told = Vec::new(alloc);
    let mut progress = Progress::new(Duration::from_millis(100), Player { number: 3 }, 4);
    let first = progress.tell(&mut told, Duration::from_millis(900), 18, &standing);
    standing.longest = 3;
    standing.heard = [2, 0, 3, 2];
    let second = progress.tell(&mut told, Duration::from_millis(1100), 19, &standing);
    first.is_ok() && second.is_ok() && told.as_slice() == LINE
}

#[test]
fn a_line_has_all_that_is_counted(rt: HostRuntime) {
    assert!(rt; is_printed(rt.alloc()));
}
