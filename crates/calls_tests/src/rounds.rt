//! The calls that update pods under a gate.

ghost use Rattle.std.specs.Prelude.{◌≡◌};
ghost use Rattle.totals.specs.state.Totals.{nothing};
ghost use Rattle.event_book.specs.state.Shares.{most_parts, share_with};

use crate::book_tests::fill;
use crate::pods::{first_of, first_pieces};
use crate::replays::replay_text;
use crate::scenario::Scenario;
use event_book::{Blanks, EventBook, Shares, WholeBook};
use kubelet_replay::Gate;
use lists::Sequence;
use manifest::PodSpec;
use node_config::NodeConfig;
use observations::{MOST_PODS, PodObs, TickObs};
use pod_pool::{PoolFault, update_all};
use std::alloc::{AllocGlobal, Global};
use std::marker::Brand;
use std::mem::replace;
use std::process::Abort;
use std::sync::ledger::Ledger;
use std::sync::{Mutex, Wait};
use std::test::Fail;
use std::thread::Threads;
use tick_round::Node;
use trace::{Format, read_trace};

/// A call that updates pods under a gate.
#[derive(Clone, Copy)]
pub(crate) enum Round {
    /// `replay`.
    Replay,
    /// `Node::tick`, for each tick.
    Tick,
    /// `update_all`, for the first tick.
    UpdateAll,
}

pub(crate) const ROUNDS: [Round; 3] = [Round::Replay, Round::Tick, Round::UpdateAll];

/// A call over a book that is made for it.
#[derive(Clone, Copy)]
pub(crate) enum BookCall<'a, G: Gate> {
    /// `Node::tick`, for each tick of the scenario's trace.
    Tick(&'a Scenario<'a, G>),
    /// `update_all`, for its first tick.
    UpdateAll(&'a Scenario<'a, G>),
    /// `EventBook::enter`, until the book is full.
    Enter,
    /// `Node::fits`, for the first tick of the trace that this text says, with its pods left out: whether it says so.
    LeaveOut(&'a str, bool),
}

/// The node takes a tick, whose pods the scenario's workers update.
fn take<U: Ledger + Send, E: Ledger + Send, O: Ledger + Send, R: Threads + Wait + Sync, G: Gate>(
    rt: &R,
    node: &mut Node<U, E, O>,
    tick: TickObs,
    scenario: &Scenario<'_, G>,
) -> Result<(), Fail> {
    if !node.fits(&tick) {
        drop(tick);
        return Err(Fail::new("the node does not take its tick"));
    }
    node.tick(rt, tick, scenario.workers, scenario.gate)?;
    Ok(())
}

/// The node takes these ticks.
fn take_all<
    U: Ledger + Send,
    E: Ledger + Send,
    O: Ledger + Send,
    R: Threads + Wait + Sync,
    G: Gate,
>(
    rt: &R,
    node: &mut Node<U, E, O>,
    ticks: Vec<TickObs>,
    scenario: &Scenario<'_, G>,
) -> Result<(), Fail> {
    for tick in ticks {
        take(rt, node, tick, scenario)?;
    }
    Ok(())
}

/// A node with these pods, before any tick.
fn node_of<U: Ledger, E: Ledger, O: Ledger>(
    alloc: Global,
    config: NodeConfig,
    pods: Vec<PodSpec>,
    book: WholeBook<U, E, O>,
) -> Result<Node<U, E, O>, Fail>
    requires { book ≡ nothing }
{
    if pods.len() > MOST_PODS {
        drop((config, pods, book));
        return Err(Fail::new("the trace has too many pods"));
    }
    Ok(Node::new(alloc, config, pods, book)?)
}

/// A node with the pods of the scenario's trace takes the trace's ticks.
fn run<U: Ledger + Send, E: Ledger + Send, O: Ledger + Send, R: Threads + Wait + Sync, G: Gate>(
    rt: &R,
    alloc: Global,
    book: WholeBook<U, E, O>,
    scenario: &Scenario<'_, G>,
) -> Result<(), Fail>
    requires { book ≡ nothing }
{
    let trace = scenario.trace(alloc)?;
    match node_of(alloc, trace.node, trace.pods.into_vec(), book) {
        Ok(node) => {
            let mut node = node;
            let answer = take_all(rt, &mut node, trace.ticks.into_vec(), scenario);
            drop(node);
            answer
        }
        Err(fault) => {
            drop(trace.ticks);
            Err(fault)
        }
    }
}

/// Whether the node may take the tick with these pods in place of its own, with which it may.
fn fits_with<U: Ledger, E: Ledger, O: Ledger>(
    node: &Node<U, E, O>,
    tick: TickObs,
    pods: Vec<Option<PodObs>>,
) -> Result<bool, Fail> {
    if !node.fits(&tick) {
        drop((tick, pods));
        return Err(Fail::new("the node does not take its tick"));
    }
    let mut tick = tick;
    drop(replace(&mut tick.pods, Sequence::from_vec(pods)));
    let fits = node.fits(&tick);
    drop(tick);
    Ok(fits)
}

/// This many pods of which nothing is shown.
fn left_out(alloc: Global, count: usize) -> Result<Vec<Option<PodObs>>, Fail> {
    let mut pods = Vec::new(alloc);
    for _ in 0..count {
        pods.push(None)?;
    }
    Ok(pods)
}

/// Whether the node may take the first of these ticks with so many pods left out.
fn fits_without<U: Ledger, E: Ledger, O: Ledger>(
    alloc: Global,
    node: &Node<U, E, O>,
    ticks: Vec<TickObs>,
    count: usize,
) -> Result<bool, Fail> {
    let tick = first_of(ticks)?;
    match left_out(alloc, count) {
        Ok(pods) => fits_with(node, tick, pods),
        Err(fault) => {
            drop(tick);
            Err(fault)
        }
    }
}

/// Whether a node with the pods of the trace that the text says may take its first tick, with all of them left out.
fn leave_out<U: Ledger, E: Ledger, O: Ledger>(
    alloc: Global,
    book: WholeBook<U, E, O>,
    text: &str,
) -> Result<bool, Fail>
    requires { book ≡ nothing }
{
    let trace = read_trace(alloc, Format::Extended, text.as_bytes())?;
    let pods = trace.pods.into_vec();
    let count = pods.len();
    match node_of(alloc, trace.node, pods, book) {
        Ok(node) => {
            let fits = fits_without(alloc, &node, trace.ticks.into_vec(), count);
            drop(node);
            fits
        }
        Err(fault) => {
            drop(trace.ticks);
            Err(fault)
        }
    }
}

/// The pods of the scenario's trace take the first tick, as this round's pieces.
fn update<U: Ledger + Send, E: Ledger + Send, O: Ledger + Send, R: Threads + Wait + Sync, G: Gate>(
    rt: &R,
    alloc: Global,
    book: &Mutex<EventBook<U, E, O>>,
    share: Shares<U, E, O>,
    scenario: &Scenario<'_, G>,
) -> Result<(), Fail>
    requires whole { share ≡ share_with most_parts nothing }
    requires level { (U.parts ≡ most_parts) × (E.parts ≡ most_parts) × (O.parts ≡ most_parts) }
{
    let pieces = first_pieces(alloc, scenario)?;
    let answer = update_all(
        rt,
        alloc,
        pieces,
        book,
        share,
        scenario.workers,
        scenario.gate,
    );
    let is_updated = answer.is_ok();
    drop(answer);
    if is_updated {
        Ok(())
    } else {
        Err(Fail::new("memory was refused"))
    }
}

/// The call, over a book with these ledgers.
fn make<
    U: Ledger + Send,
    E: Ledger + Send,
    O: Ledger + Send,
    R: Abort + Threads + Wait + Sync,
    G: Gate,
>(rt: &R, alloc: Global, blanks: Blanks, call: BookCall<'_, G>) -> Result<(), Fail>
    requires names { (blanks.updates.name ≡ U.name) × (blanks.events.name ≡ E.name) × (blanks.orders.name ≡ O.name) }
    requires parts { (blanks.updates.parts ≡ U.parts) × (blanks.events.parts ≡ E.parts)
        × (blanks.orders.parts ≡ O.parts) }
{
    match call {
        BookCall::Tick(scenario) => run(rt, alloc, WholeBook::<U, E, O>::new(blanks), scenario),
        BookCall::UpdateAll(scenario) => {
            let (book, share) = EventBook::<U, E, O>::new(blanks);
            update(rt, alloc, &Mutex::new(book), share, scenario)
        }
        BookCall::LeaveOut(text, fits) => {
            let answer = leave_out(alloc, WholeBook::<U, E, O>::new(blanks), text)?;
            assert_eq!(rt; answer, fits);
            Ok(())
        }
        BookCall::Enter => {
            let (book, share) = EventBook::<U, E, O>::new(blanks);
            fill(rt, book, share);
            Ok(())
        }
    }
}

/// The call, over a book of its own.
pub(crate) fn over_book<H: Abort + AllocGlobal + Threads + Wait + Sync, G: Gate>(
    rt: &H,
    call: BookCall<'_, G>,
) -> Result<(), Fail> {
    make::<Brand, Brand, Brand, H, G>(rt, rt.alloc(), Blanks::new(), call)
}

impl Round {
    /// Updates the pods of the scenario's trace.
    pub(crate) fn make<H: Abort + AllocGlobal + Threads + Wait + Sync, G: Gate>(
        self,
        rt: &H,
        scenario: &Scenario<'_, G>,
    ) -> Result<(), Fail> {
        match self {
            Round::Replay => replay_text(rt, scenario),
            Round::Tick => over_book(rt, BookCall::Tick(scenario)),
            Round::UpdateAll => over_book(rt, BookCall::UpdateAll(scenario)),
        }
    }
}
