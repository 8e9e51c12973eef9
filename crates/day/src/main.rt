// A day at a harbour: one whole use of a sheet over listed plans, each call printed with its answer.
#![tactic(auto)]

use runs::run::run;
use runs::{Call, Reply};
use show::{Answer, Asked};
use sources::Listed;
use std::io;

mod show;

// Tomorrow's plans, a row of six statements each: Alma at the north quay, Bris at the south quay and Tern at the slip;
// Alma and Bris the other way round; and the first again with Tern out at sea.
const PLANS: [u8; 18] = [1, 2, 2, 1, 1, 1, 2, 1, 1, 2, 1, 1, 1, 2, 2, 1, 2, 1];

fn main(rt: HostRuntime) -> io::Result<()> {
    let Ok(plans) = Listed::new(6, 3, &PLANS) else {
        return println!(rt; "the plans cannot be listed");
    };
    let calls = [
        Call::Tally,
        Call::Begin(&[1; 6]),
        Call::Tally,
        Call::SettleBy("over", 0),
        Call::SettleBy("under", 0),
        Call::Tell(4),
        Call::SettleBy("chunk", 2),
        Call::Tell(5),
        Call::SettleBy("over", 0),
        Call::Tell(3),
        Call::Pin(0, 1),
        Call::Tell(3),
        Call::Settle(&[0, 0, 0, 1, 0, 0]),
        Call::Tell(3),
        Call::SettleBy("under", 0),
        Call::Pin(1, 1),
        Call::Pin(0, 2),
        Call::Tell(6),
        Call::Tally,
    ];
    let mut replies = [Ok(Reply::Done); 19];
    let (_, made) = run(plans, &calls, &mut replies);
    for (call, reply) in calls.iter().zip(&replies).take(made) {
        println!(rt; "{} -> {}", Asked(call), Answer(reply))?;
    }
    Ok(())
}
