//! A batch of packets through a relay.
ghost use Rattle.std.specs.Prelude.{◌<◌, ◌^◌};
ghost use Rattle.c8_relay.specs.Honest.{IsHonest};

use crate::counts::Counts;
use c8_relay::{BATCH, Ether, Relay, Turned, begin, turn};

/// Takes up to [`BATCH`] packets, and counts them. Returns whether more may wait.
pub fn batch<E: Ether>(relay: &mut Relay, ether: &mut E, now: u64, counts: &mut Counts) -> bool
    requires now { now < 2 ^ 62 }
    requires honest { IsHonest relay.old (E.received ether.old) (E.sent ether.old) }
    ensures { IsHonest relay.new (E.received ether.new) (E.sent ether.new) }
{
    begin(relay, ether, now);
    for _ in 0..BATCH {
        let turned = turn(relay, ether, now);
        if let Turned::Idle = turned {
            return false;
        }
        counts.add(turned);
    }
    true
}
