//! What a job is.

/// Work for a thread of its own. What it works on and works with is in it, the runtime too.
pub trait Job: Drop + Send {
    /// The relation of a job after its work to the job before it.
    ghost keeps: { Self → Self → Type 0 };

    /// Does the work, all of it.
    fn work(&mut self)
        ensures { keeps self.old self.new };

    /// A job is related to itself.
    ghost keeps_itself: { (job : Self) → keeps job job };
}
