//! How many bytes of each connection its world doesn't get.

ghost use Rattle.std.specs.Prelude.{◌≡◌, ◌+◌, find, OnOk};
ghost use Rattle.std.specs.Option.{option_map};
ghost use Rattle.px_cache_world.specs.Skips.{skips_for, skipped_of, other_skips, with_skip};

use px_types::{ConnId, Mem};

/// The number of bytes of a connection that its world doesn't get. It stays at `u64::MAX` once it reaches that.
#[derive(Clone, Copy, Debug, PartialEq, Eq)]
pub struct Skip {
    pub conn: ConnId,
    pub bytes: u64,
}

// The skip of a connection, where it has one.
fn found(skips: &[Skip], conn: ConnId) -> Option<&Skip>
    ensures { option_map (λ skip. skip.now) result ≡ find (skips_for conn) skips.now }
{
    skips.iter().find(|skip| skip.conn.0 == conn.0)
}

/// How many bytes of a connection its world doesn't get. Takes no memory.
pub(crate) fn skipped_of(skips: &[Skip], conn: ConnId) -> u64
    ensures { result ≡ skipped_of conn skips.now }
{
    match found(skips, conn) {
        None => 0,
        Some(skip) => skip.bytes,
    }
}

/// Drops the skip of a connection. Takes no memory.
pub(crate) fn drop_skip(skips: &mut Vec<Skip>, conn: ConnId)
    ensures { skips.new.items ≡ other_skips conn skips.old.items }
{
    skips.retain(|skip| skip.conn.0 != conn.0);
}

/// The world of a connection doesn't get `more` bytes of it.
pub(crate) fn skip_more(skips: &mut Vec<Skip>, conn: ConnId, more: u64) -> Mem<()>
    ensures { OnOk result (skips.new.items ≡ with_skip conn more skips.old.items) }
{
    let bytes = skipped_of(skips.as_slice(), conn).saturating_add(more);
    drop_skip(skips, conn);
    skips.push(Skip { conn, bytes })?;
    Ok(())
}
