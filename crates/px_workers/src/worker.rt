//! A worker of the server.
ghost use Rattle.std.specs.Prelude.{◌≡◌, ◌+◌, ◌<◌, IfOk, OnErr};

use px_types::Mem;
use px_worker_api::Handle;
use std::sync::Arc;

/// A worker: its handle on the shared state, the gate that says when it goes on, and its source of blocks.
#[derive(Drop)]
pub(crate) struct Worker<W: Handle, G> {
    pub handle: W,
    pub gate: Arc<G>,
    pub blocks: W::Blocks,
}

impl<W: Handle, G: Drop> Worker<W, G> {
    /// A worker with one share of those of `handle`.
    pub(crate) fn new(handle: &mut W, gate: &Arc<G>) -> Mem<Worker<W, G>>
        requires { 1 < W.parts handle.old }
        ensures ok { IfOk result (λ made. (W.parts made.handle ≡ 1) × (W.parts handle.new + 1 ≡ W.parts handle.old)) }
        ensures err { OnErr result (W.parts handle.new ≡ W.parts handle.old) }
    {
        let gate = Arc::try_clone(gate)?;
        let blocks = handle.blocks()?;
        let handle = handle.another()?;
        Ok(Worker {
            handle,
            gate,
            blocks,
        })
    }
}
