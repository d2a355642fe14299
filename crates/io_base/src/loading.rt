//! Loading a whole file, up to a limit.
ghost use Rattle.std.specs.Prelude.{◌≡◌, ◌≤◌, ◌<◌, ◌-◌, ◌+◌, length, IsTrue, IfOk, IsErrOf, MatchResult, ◌⊎◌};
ghost use Rattle.io_base.specs.Causes.{Rose};
ghost use Rattle.io_base.specs.Shelf.{GoesOn, CountsTaken, CountsNoChange};
ghost use Rattle.io_base.specs.Loading.{IsWhole, ExplainsFault, TookMore};

use crate::{Failed, NAME_LIMIT, Shelf};
use std::alloc::Global;
use thiserror::Error;

/// Why a file was not loaded.
#[derive(Clone, Copy, Debug, PartialEq, Eq, Error)]
pub enum LoadFault {
    /// A read failed.
    #[error("a read failed")]
    Failed,
    /// The name is not there.
    #[error("no such file")]
    NoFile,
    /// The file has more bytes than the limit.
    #[error("the file is too long")]
    TooLong,
    /// Memory was refused.
    #[error("out of memory")]
    OutOfMemory,
}

/// How many bytes are read at a time.
const PIECE: usize = 4096;

/// Loads the file `name`, which may have at most `limit` bytes.
///
/// A read of 0 bytes is the end. At most one byte more than the limit is taken.
pub fn load<S: Shelf>(
    alloc: Global,
    shelf: &mut S,
    name: &str,
    limit: u64,
) -> Result<Vec<u8>, LoadFault>
    requires { length name.now ≤ NAME_LIMIT }

    // What a shelf that tells its files says of the answer.
    ensures told { IsTrue (S.state shelf.old).tells → MatchResult result
        (λ bytes. IsWhole ((S.state shelf.old).file name.now) limit bytes.items)
        (ExplainsFault ((S.state shelf.old).file name.now) limit) }

    // What holds over every shelf.
    ensures fits { IfOk result (λ bytes. length bytes.items ≤ limit) }
    ensures counted { IfOk result (λ bytes.
        CountsTaken (S.state shelf.old) (S.state shelf.new) (length bytes.items)) }
    ensures failed { IsErrOf result LoadFault.Failed →
        Rose (S.state shelf.old).faults (S.state shelf.new).faults }
    ensures failed_name { IsErrOf result LoadFault.Failed →
        (S.state shelf.new).last_failed ≡ name.now }
    ensures no_file { IsErrOf result LoadFault.NoFile →
        Rose (S.state shelf.old).absent (S.state shelf.new).absent }
    ensures absent { (S.state shelf.old).absent < (S.state shelf.new).absent →
        IsErrOf result LoadFault.NoFile }
    ensures too_long { IsErrOf result LoadFault.TooLong →
        TookMore (S.state shelf.old) (S.state shelf.new) limit }
    ensures took_more { limit < (S.state shelf.new).taken - (S.state shelf.old).taken →
        IsErrOf result LoadFault.TooLong }

    // How the shelf is left.
    ensures at_most { (S.state shelf.new).taken ≤ (S.state shelf.old).taken + limit + 1 }
    ensures kept { IsErrOf result LoadFault.Failed
        ⊎ ((S.state shelf.new).last_failed ≡ (S.state shelf.old).last_failed) }
    ensures calm { IsErrOf result LoadFault.Failed
        ⊎ ((S.state shelf.new).faults ≡ (S.state shelf.old).faults) }
    ensures no_change { CountsNoChange (S.state shelf.old) (S.state shelf.new) }
    ensures same { (S.state shelf.new).file ≡ (S.state shelf.old).file }
    ensures goes_on { GoesOn (S.state shelf.old) (S.state shelf.new) }
{
    let mut buf = [0u8; PIECE];
    let mut bytes = Vec::new(alloc);
    'pieces: loop {
        let at = bytes.len() as u64;
        let left = limit - at;
        let room = left.saturating_add(1).min(PIECE as u64) as usize;
        let piece = &mut buf[..room];
        match shelf.read_at(name, at, piece) {
            Err(Failed) => return Err(LoadFault::Failed),
            Ok(None) => return Err(LoadFault::NoFile),
            Ok(Some(0)) => return Ok(bytes),
            Ok(Some(count)) => {
                if count as u64 > left {
                    return Err(LoadFault::TooLong);
                }
                if bytes.extend_from_slice(&piece[..count]).is_err() {
                    return Err(LoadFault::OutOfMemory);
                }
            }
        }
    }
}
