ghost use Rattle.std.specs.Prelude.{◌≡◌, ◌++◌, [], None, IfSome, OnOk, OnErr, string_bytes, take};
ghost use Rattle.lfg_io.specs.Shelf.{IsLoaded};

use crate::counts::raise;
use crate::shelf::{Shelf, ShelfFault};
use std::alloc::Global;
use std::fs;
use std::io::Read;
use std::rt::Files;

/// How many bytes a read asks for at most.
const CHUNK: usize = 512;

/// A shelf over the files of the system. It tells no content, and is sure of no name.
#[derive(Drop)]
pub struct DiskShelf<R: Files> {
    rt: R,
    faults: u64,
    last_failed: String,
}

impl<R: Files> DiskShelf<R> {
    /// A shelf over the files of the runtime that has counted no fault. Takes no memory.
    pub fn new(alloc: Global, rt: R) -> DiskShelf<R>
        ensures faults { ⟦<DiskShelf<R> as Shelf>⟧.faults result ≡ 0 }
        ensures last_failed { ⟦<DiskShelf<R> as Shelf>⟧.last_failed result ≡ [] }
    {
        DiskShelf {
            rt,
            faults: 0,
            last_failed: String::new(alloc),
        }
    }
}

/// Appends the first `limit` bytes that the reader gives, or all if they are fewer. A read that gives
/// no byte where some were asked for is the end. What was appended before a fault is taken back.
fn append_from<R: Read>(reader: &mut R, limit: usize, into: &mut Vec<u8>) -> Result<(), ShelfFault>
    ensures within { OnOk result (IsLoaded None [] limit into.old.items into.new.items) }
    ensures known { OnOk result (IfSome (R.remaining reader.old) (λ bytes. into.new.items ≡ into.old.items ++ take limit bytes)) }
    ensures refused { OnErr result (into.new.items ≡ into.old.items) }
{
    let start = into.len();
    let mut buffer = [0u8; CHUNK];
    let mut left = limit;
    while left > 0 {
        let most = left.min(CHUNK);
        match reader.read(&mut buffer[..most]) {
            Ok(0) => break,
            Ok(count) => {
                if into.extend_from_slice(&buffer[..count]).is_err() {
                    into.truncate(start);
                    return Err(ShelfFault::Memory);
                }
                left -= count;
            }
            Err(_) => {
                into.truncate(start);
                return Err(ShelfFault::Failed);
            }
        }
    }
    Ok(())
}

/// Appends the first `limit` bytes of the file, or all of a shorter one.
fn load_from<R: Files>(
    rt: &R,
    name: &str,
    limit: usize,
    into: &mut Vec<u8>,
) -> Result<(), ShelfFault>
    ensures loaded { OnOk result (IsLoaded None name.now limit into.old.items into.new.items) }
    ensures refused { OnErr result (into.new.items ≡ into.old.items) }
{
    match fs::open(rt, name) {
        Ok(mut file) => append_from(&mut file, limit, into),
        Err(_) => Err(ShelfFault::Failed),
    }
}

impl<R: Files> Shelf for DiskShelf<R> {
    ghost files = { λ _. None };

    ghost sure = { λ _. [] };

    ghost faults = { λ shelf. shelf.faults };

    ghost last_failed = { λ shelf. string_bytes shelf.last_failed };

    fn load(
        &mut self,
        alloc: Global,
        name: &str,
        limit: usize,
        into: &mut Vec<u8>,
    ) -> Result<(), ShelfFault> {
        let Ok(failed) = String::from_str(alloc, name) else {
            return Err(ShelfFault::Memory);
        };
        match load_from(&self.rt, name, limit, into) {
            Err(ShelfFault::Failed) => {
                self.faults = raise(self.faults);
                self.last_failed = failed;
                Err(ShelfFault::Failed)
            }
            other => other,
        }
    }
}

#[cfg(test)]
mod tests {
    use super::*;
    use std::test::Fail;

    #[test]
    fn loads_the_file_up_to_the_limit(rt: HostRuntime) -> Result<(), Fail> {
        let path = "lfg_io_disk_shelf_test";
        let content = vec![in rt.alloc(); b'x'; 1300]?;
        fs::write(&rt, path, content.as_slice())?;
        let mut shelf = DiskShelf::new(rt.alloc(), &rt);
        let mut text = b"in front ".to_vec(rt.alloc())?;
        assert_eq!(rt; shelf.load(rt.alloc(), path, 1200, &mut text), Ok(()));
        assert_eq!(rt; text.len(), 1209);
        assert_eq!(rt; shelf.load(rt.alloc(), path, 1301, &mut text), Ok(()));
        assert_eq!(rt; text.len(), 2509);
        assert!(rt; text.as_slice().starts_with(b"in front "));
        assert_eq!(rt; text.iter().filter(|byte| **byte == b'x').count(), 2500);
        fs::remove_file(&rt, path)?;
        let failed = Err(ShelfFault::Failed);
        assert_eq!(rt; shelf.load(rt.alloc(), path, 9, &mut text), failed);
        assert_eq!(rt; text.len(), 2509);
        assert_eq!(rt; (shelf.faults, shelf.last_failed.as_str()), (1, path));
        Ok(())
    }
}
