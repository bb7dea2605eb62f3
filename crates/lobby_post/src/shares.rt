//! Long pieces lie in memory once, and the outboxes that take them share them.

ghost use Rattle.std.specs.Prelude.{◌≡◌, ◌≤◌, [], length, ◌++◌, List, ℕ, IfOk, IfSome, None, OnOk, OnErr};
ghost use Rattle.lobby_post.specs.Dues.{share_of, with_share};

use bytes::Bytes;
use std::alloc::{AllocError, Global};
use std::collections::VecDeque;

/// From so many bytes on a piece is shared, which is then cheaper than a copy at any pace. Where many lines wait it is
/// so from some 600 bytes on (docs/DECISIONS.md).
pub const SHARED_FROM: usize = 2_048;

/// The share that a piece has: a long one is copied for it, a short one has none.
pub fn share(alloc: Global, bytes: &[u8]) -> Result<Option<Bytes>, AllocError>
    ensures { IfOk result (λ share. share ≡ share_of bytes.now) }
{
    if bytes.len() < SHARED_FROM {
        return Ok(None);
    }
    Ok(Some(Bytes::copy_from_slice(alloc, bytes)?))
}

/// Puts the share of a piece behind those of the pieces before it, where it has one.
#[cold]
#[inline(never)]
pub fn add_share(
    alloc: Global,
    bytes: &[u8],
    shares: &mut VecDeque<Bytes>,
) -> Result<(), AllocError>
    ensures ok { OnOk result (shares.new.items ≡ shares.old.items ++ with_share bytes.now []) }
    ensures err { OnErr result (shares.new.items ≡ shares.old.items) }
{
    if let Some(share) = share(alloc, bytes)? {
        shares.push_back(share)?;
    }
    Ok(())
}

/// The same of a line for several clients. A long one is copied once, and kept for those that follow.
#[inline(always)]
pub fn add_share_of_line(
    alloc: Global,
    line: &mut Option<Bytes>,
    bytes: &[u8],
    shares: &mut VecDeque<Bytes>,
) -> Result<(), AllocError>
    requires { IfSome line.old (λ whole. whole ≡ bytes.now) }
    ensures line { IfSome line.new (λ whole. whole ≡ bytes.now) }
    ensures ok { OnOk result (shares.new.items ≡ shares.old.items ++ with_share bytes.now []) }
    ensures err { OnErr result (shares.new.items ≡ shares.old.items) }
{
    if bytes.len() < SHARED_FROM {
        return Ok(());
    }
    add_share_of_long_line(alloc, line, bytes, shares)
}

/// The same of a long line. It stands apart, so that a short one costs a test and no more.
#[cold]
#[inline(never)]
fn add_share_of_long_line(
    alloc: Global,
    line: &mut Option<Bytes>,
    bytes: &[u8],
    shares: &mut VecDeque<Bytes>,
) -> Result<(), AllocError>
    requires long { 2048 ≤ length bytes.now }
    requires line { IfSome line.old (λ whole. whole ≡ bytes.now) }
    ensures line { IfSome line.new (λ whole. whole ≡ bytes.now) }
    ensures ok { OnOk result (shares.new.items ≡ shares.old.items ++ with_share bytes.now []) }
    ensures err { OnErr result (shares.new.items ≡ shares.old.items) }
{
    if line.is_none() {
        *line = Some(Bytes::copy_from_slice(alloc, bytes)?);
    }
    if let Some(whole) = line {
        shares.push_back(whole.clone()?)?;
    }
    Ok(())
}

/// Another line is told: the share that was kept of the one before goes, where there is one.
#[inline(always)]
pub fn forget_line(line: &mut Option<Bytes>)
    ensures { line.new ≡ None }
{
    if line.is_some() {
        drop_line(line);
    }
}

/// Lets a share go. It stands apart, so that each line which is written pays for a test and no more.
#[cold]
#[inline(never)]
fn drop_line(line: &mut Option<Bytes>)
    ensures { line.new ≡ None }
{
    *line = None;
}

/// Takes the share of a piece out of those of the pieces that are left, where it has one.
#[inline(always)]
pub fn next_share(bytes: &[u8], shares: &mut VecDeque<Bytes>) -> Option<Bytes>
    ensures { (rest : List (List ℕ)) → shares.old.items ≡ with_share bytes.now rest
        → (result ≡ share_of bytes.now) × (shares.new.items ≡ rest) }
{
    if bytes.len() < SHARED_FROM {
        return None;
    }
    shares.pop_front()
}
