//! Traces of many ticks as text, in some of which memory is short.

use std::alloc::{AllocError, Global};

/// Pods with one container each, by ticks that are ten seconds apart, in the extended format. Each pod uses another
/// amount of memory from tick to tick, and its container exits in every hundredth of its ticks, and is restarted.
#[derive(Clone, Copy)]
pub(crate) struct LongTrace {
    pub(crate) pods: usize,
    pub(crate) ticks: usize,
    /// In these ticks memory is short.
    pub(crate) short: &'static [usize],
    /// Evictions pause so many seconds after each.
    pub(crate) pause: usize,
    /// Before this tick one pod more arrives.
    pub(crate) arrives: Option<usize>,
    /// Before this tick the second pod goes.
    pub(crate) goes: Option<usize>,
}

/// The pod that goes.
const LEAVER: usize = 1;

/// How many of so many ticks come from that one on, if there is one.
fn ticks_from(ticks: usize, first: Option<usize>) -> usize {
    match first {
        Some(first) => ticks.saturating_sub(first),
        None => 0,
    }
}

fn has_come_to(tick: usize, first: Option<usize>) -> bool {
    match first {
        Some(first) => first <= tick,
        None => false,
    }
}

impl LongTrace {
    /// Whether the pod is present in the tick.
    fn is_present(&self, pod: usize, tick: usize) -> bool {
        if pod == LEAVER && has_come_to(tick, self.goes) {
            return false;
        }
        pod < self.pods || has_come_to(tick, self.arrives)
    }

    /// How many updates its pods have.
    pub(crate) fn updates(&self) -> u64 {
        let at_first = self.pods.saturating_mul(self.ticks);
        let all = at_first.saturating_add(ticks_from(self.ticks, self.arrives));
        all.saturating_sub(ticks_from(self.ticks, self.goes)) as u64
    }

    fn add_node(&self, text: &mut String) -> Result<(), AllocError> {
        let pause = self.pause;
        write!(
            text,
            r#"{{"kind":"node","name":"n1","version":3,"evictionPauseSeconds":{pause},"#
        )?;
        text.push_str("\"evictionHard\":{\"memory.available\":\"100Mi\"}}\n")
    }

    /// What is said before the tick of pods that come and go.
    fn add_changes(&self, text: &mut String, tick: usize) -> Result<(), AllocError> {
        if self.arrives == Some(tick) {
            add_pod(text, self.pods)?;
        }
        if self.goes == Some(tick) {
            writeln!(text, r#"{{"kind":"gone","pod":"default/p{LEAVER}"}}"#)?;
        }
        Ok(())
    }

    fn add_entries(&self, text: &mut String, tick: usize) -> Result<(), AllocError> {
        let mut comma = "";
        for pod in 0..self.pods.saturating_add(1) {
            if self.is_present(pod, tick) {
                text.push_str(comma)?;
                add_entry(text, pod, tick)?;
                comma = ",";
            }
        }
        Ok(())
    }

    fn add_tick(&self, text: &mut String, tick: usize) -> Result<(), AllocError> {
        let at = tick.saturating_mul(10);
        let available = if self.short.contains(&tick) { 50 } else { 500 };
        write!(
            text,
            r#"{{"kind":"tick","at":{at},"signals":{{"memory.available":"{available}Mi"}},"pods":["#
        )?;
        self.add_entries(text, tick)?;
        text.push_str("]}\n")
    }

    pub(crate) fn text(&self, alloc: Global) -> Result<String, AllocError> {
        let mut text = String::new(alloc);
        self.add_node(&mut text)?;
        for pod in 0..self.pods {
            add_pod(&mut text, pod)?;
        }
        for tick in 0..self.ticks {
            self.add_changes(&mut text, tick)?;
            self.add_tick(&mut text, tick)?;
        }
        Ok(text)
    }
}

fn add_pod(text: &mut String, pod: usize) -> Result<(), AllocError> {
    writeln!(
        text,
        r#"{{"kind":"pod","pod":{{"metadata":{{"name":"p{pod}"}},"spec":{{"containers":[{{"name":"c"}}]}}}}}}"#
    )
}

fn add_entry(text: &mut String, pod: usize, tick: usize) -> Result<(), AllocError> {
    let turn = tick.saturating_add(pod);
    let (attempt, rest) = (turn / 100, turn % 100);
    let state = if rest == 99 { r#"2,"exitCode":1"# } else { "1" };
    let used = pod
        .saturating_mul(7)
        .saturating_add(tick.saturating_mul(13))
        % 61;
    write!(
        text,
        r#"{{"pod":"default/p{pod}","containers":[{{"name":"c","attempt":{attempt},"state":{state}}}],"#
    )?;
    write!(text, r#""usage":{{"memory":"{used}Mi"}}}}"#)
}
