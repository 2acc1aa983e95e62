//! As many updates stand side by side as there are workers, each between what the gate does before and after.

use crate::gates::Meeting;
use crate::replays::replay_text;
use crate::rounds::ROUNDS;
use crate::scenario::Scenario;
use crate::test_gate::TestGate;
use crate::traces::trace_text;
use std::test::Fail;

#[test]
fn workers_overlap(rt: HostRuntime) -> Result<(), Fail> {
    for workers in 2..6usize {
        for pods in [workers, 60] {
            let text = trace_text(rt.alloc(), pods, 1)?;
            for round in ROUNDS {
                let meeting = Meeting::new(&rt, workers, pods)?;
                let gate = TestGate::of_meeting(&meeting);
                let scenario = Scenario::new(text.as_str(), workers, &gate);
                round.make(&rt, &scenario)?;
                meeting.expect(&rt, 1);
            }
        }
    }
    Ok(())
}

#[test]
fn each_tick_passes_the_gate_once_for_each_pod(rt: HostRuntime) -> Result<(), Fail> {
    // one worker waits for nobody
    let meeting = Meeting::new(&rt, 1, 20)?;
    let gate = TestGate::of_meeting(&meeting);
    let text = trace_text(rt.alloc(), 20, 50)?;
    let scenario = Scenario::new(text.as_str(), 3, &gate);
    replay_text(&rt, &scenario)?;
    meeting.expect(&rt, 50);
    Ok(())
}
