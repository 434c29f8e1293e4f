// Copying a store that may be served.
ghost use Rattle.std.specs.Prelude.{◌≡◌, ◌≢◌, Err, IfOk, length, string_bytes};
ghost use Rattle.disk.specs.MemDisk.{state_of};
ghost use Rattle.gateway_wire.specs.DeviceList.{last_line};
ghost use Rattle.store.specs.State.{IsOpened, store_state};

use crate::FileFault;
use crate::image::image_of;
use crate::new_file::{create, remove_new};
use crate::source::{Source, StoreFile};
use disk::{FileDisk, MemDisk};
use gateway_wire::last_line;
use lw_types::Refusal;
use std::alloc::Global;
use std::fs::File;
use std::rt::Files;
use store::{Store, establish_back, open};

// How often a store is read whose areas are written anew meanwhile. That takes two checkpoints
// while one area is read.
const TRIES: u64 = 100;

/// The store of a copy, and what is printed about it.
#[derive(Drop)]
pub struct CopiedStore {
    pub store: Store<FileDisk>,
    pub text: String,
}

/// Copies the store in a file, which another process may be serving, to a new file. The copy has
/// the table after the first n decisions, for some n that the store had meanwhile, and no other
/// table. If this fails, the new file doesn't exist. The store's file is only read, and its lock
/// isn't taken. Memory holds its bytes three times.
///
/// A copy must not be served, since the store that goes on would use the same counters.
/// [`restore`](crate::restore) makes a store of it.
pub fn copy_store<R: Files<File = File>>(
    rt: &R,
    alloc: Global,
    file: &str,
    new: &str,
) -> Result<CopiedStore, FileFault>
    ensures { IfOk result (λ made. string_bytes made.text
        ≡ last_line (length made.store.table.devices) made.store.seq) }
{
    let mut source = StoreFile::open(rt, file)?;
    let store = copied(alloc, &mut source)?;
    let (table, seq) = (store.table().copy()?, store.seq());
    drop(store);
    let text = last_line(alloc, table.devices().len(), seq)?;
    let (disk, made) = create(rt, new, table.slots())?;
    match establish_back(alloc, disk, table, seq) {
        Ok(store) => Ok(CopiedStore { store, text }),
        Err((disk, refusal)) => Err(remove_new(rt, made, disk, FileFault::Refused(refusal))),
    }
}

/// The store that a source holds, in memory.
pub fn copied<S: Source>(alloc: Global, source: &mut S) -> Result<Store<MemDisk>, FileFault>
    ensures opened { S.still → IfOk result
        (λ store. IsOpened (S.content source.old) (store_state state_of store)) }
    ensures changing { S.still → result ≢ Err FileFault.Changing }
    ensures same { S.still → S.content source.new ≡ S.content source.old }
{
    for _ in 0..TRIES {
        if let Some(image) = image_of(alloc, source)? {
            return Ok(store_in(alloc, image)?);
        }
    }
    Err(FileFault::Changing)
}

// The store that an image holds.
fn store_in(alloc: Global, image: Vec<u8>) -> Result<Store<MemDisk>, Refusal>
    ensures { IfOk result (λ store. IsOpened image.items (store_state state_of store)) }
{
    let disk = MemDisk::new(alloc, image)?;
    open(alloc, disk)
}
