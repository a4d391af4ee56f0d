//! Files that are held in a map, read and written by name.
ghost use Rattle.std.specs.Prelude.{◌≡◌, ◌≢◌, ◌≤◌, OnOk, OnErr, IfOk, vec_len};
ghost use Rattle.std.specs.FinMap as map;
ghost use Rattle.ci_io.specs.Maps.{files_of};
ghost use Rattle.ci_io.specs.CallLists.{answer_of};
ghost use Rattle.ci_io.specs.Reads.{IsReadOf};

use crate::ShelfErr;
use std::alloc::{AllocError, Global};
use std::collections::BTreeMap;

/// A copy of the file of a name.
///
/// Errors: `Absent`, `TooLarge` where the file has more than `limit` bytes, `NoMemory`.
pub fn read_held(
    alloc: Global,
    files: &BTreeMap<String, Vec<u8>>,
    name: &str,
    limit: u64,
) -> Result<Vec<u8>, ShelfErr>
    ensures of_the_file { IsReadOf (files_of files.now) name.now limit (answer_of result) }
    ensures within_limit { IfOk result (λ bytes. vec_len bytes ≤ limit) }
    ensures no_fault { result ≢ Err ShelfErr.Fault }
{
    let Some(file) = files.get(name) else {
        return Err(ShelfErr::Absent);
    };
    if file.len() as u64 > limit {
        return Err(ShelfErr::TooLarge);
    }
    let Ok(bytes) = Vec::from_slice(alloc, file.as_slice()) else {
        return Err(ShelfErr::NoMemory);
    };
    Ok(bytes)
}

/// Makes the name hold exactly these bytes.
pub fn write_held(
    alloc: Global,
    files: &mut BTreeMap<String, Vec<u8>>,
    name: &str,
    bytes: &[u8],
) -> Result<(), AllocError>
    ensures ok { OnOk result (files_of files.new ≡ map.insert (files_of files.old) name.now bytes.now) }
    ensures err { OnErr result (files_of files.new ≡ files_of files.old) }
{
    let key = String::from_str(alloc, name)?;
    let file = Vec::from_slice(alloc, bytes)?;
    files.insert(key, file)?;
    Ok(())
}
