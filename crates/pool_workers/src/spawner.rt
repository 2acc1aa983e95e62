//! What starts the threads of workers.

use std::sync::Wait;
use std::thread::Threads;

/// Starts threads that may wait, and is shared by them.
pub trait Spawner: Threads + Wait + Sync {}

impl<R: Threads + Wait + Sync> Spawner for R {}
