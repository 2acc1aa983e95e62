//! A pod is stolen from the deque of another worker.

use crate::gates::Pair;
use crate::replays::replay_text;
use crate::scenario::Scenario;
use crate::test_gate::TestGate;
use crate::traces::trace_text;
use std::test::Fail;

// Two workers are dealt the first and the third pod, and the second pod. The first two wait for each other.
#[test]
fn tick_ends_by_a_theft(rt: HostRuntime) -> Result<(), Fail> {
    let pair = Pair::new(&rt);
    let gate = TestGate::of_pair(&pair);
    let text = trace_text(rt.alloc(), 3, 1)?;
    let scenario = Scenario::new(text.as_str(), 2, &gate);
    replay_text(&rt, &scenario)?;
    pair.expect(&rt);
    Ok(())
}
