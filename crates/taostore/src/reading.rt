//! Reading a source to its end.
ghost use Rattle.std.specs.Prelude.{◌≡◌, ◌<◌, ◌≤◌, ◌+◌, ◌++◌, ℕ, List, IfOk, OnOk, IsErrOf, length, vec_len};
ghost use Rattle.std.specs.Io.KnownBytes.{Consumes, IsAtEnd};
ghost use Rattle.tao_base.specs.Causes.{Rose};
ghost use Rattle.taostore.specs.Input.{TakesPrefix, TakesInput};

use crate::faults::StreamFault;
use std::alloc::Global;
use tao_base::{Image, NoMemory, Source};

/// How many bytes are asked for at once.
const CHUNK: usize = 1 << 16;

/// Reads the source to its end, or `limit` bytes of it.
pub fn take_all<S: Source>(
    alloc: Global,
    source: &mut S,
    limit: usize,
) -> Result<Image, StreamFault>
    ensures bytes { IfOk result (TakesInput S.left source.old source.new limit) }
    ensures some { TakesPrefix S.left source.old source.new }
    ensures ok { OnOk result (S.faults source.new ≡ S.faults source.old) }
    ensures failed { IsErrOf result StreamFault.Failed → Rose (S.faults source.old) (S.faults source.new) }
    ensures memory { IsErrOf result StreamFault.NoMemory → S.faults source.new ≡ S.faults source.old }
{
    let mut bytes = Image::new(alloc);
    let mut room = zeros(alloc, CHUNK)?;
    while bytes.as_slice().len() < limit {
        let most = room.len().min(limit - bytes.as_slice().len());
        if read_once(source, &mut room[..most], &mut bytes)? == 0 {
            break;
        }
    }
    Ok(bytes)
}

// Reads once, and says how many bytes came: they go behind those that were taken before.
fn read_once<S: Source>(
    source: &mut S,
    room: &mut [u8],
    bytes: &mut Image,
) -> Result<usize, StreamFault>
    requires { 0 < length room.old }
    ensures some { TakesPrefix S.left source.old source.new }
    ensures more { OnOk result ((more : List ℕ) × Consumes (S.left source.old) (S.left source.new) more × (bytes.new ≡ bytes.old ++ more)) }
    ensures count { IfOk result (λ n. (n ≤ length room.old) × (length bytes.new ≡ length bytes.old + n)) }
    ensures end { IfOk result (λ n. n ≡ 0 → IsAtEnd (S.left source.new)) }
    ensures ok { OnOk result (S.faults source.new ≡ S.faults source.old) }
    ensures failed { IsErrOf result StreamFault.Failed → Rose (S.faults source.old) (S.faults source.new) }
    ensures memory { IsErrOf result StreamFault.NoMemory → S.faults source.new ≡ S.faults source.old }
{
    let n = source.read(room)?;
    bytes.extend_from_slice(&room[..n])?;
    Ok(n)
}

// So many bytes, all zero.
fn zeros(alloc: Global, len: usize) -> Result<Vec<u8>, NoMemory>
    ensures { IfOk result (λ room. vec_len room ≡ len) }
{
    Ok(vec![in alloc; 0u8; len]?)
}
