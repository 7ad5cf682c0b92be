//! Files in memory.
ghost use Rattle.std.specs.Prelude.{◌≡◌, ℕ, List, [], ◌∷◌, None, map, OnOk, OnErr};

use crate::memory_source::MemorySource;
use lj_run::{FileFault, Files};
use lj_text::{MemorySink, Sink, SinkFault};
use std::alloc::{AllocError, Global};
use std::cell::RefCell;
use std::collections::{BTreeMap, LinkedList};
use std::rc::Rc;

/// The bytes of each file, by its path.
type Slots = BTreeMap<String, Rc<RefCell<Vec<u8>>>>;

/// A created file. Its bytes are found at its path once it is dropped.
pub struct MemoryFile {
    sink: MemorySink,
    slot: Rc<RefCell<Vec<u8>>>,
}

impl Drop for MemoryFile {
    fn drop(self) {
        let MemoryFile { sink, slot } = self;
        let _ = slot.try_replace(sink.into_bytes());
    }
}

impl Sink for MemoryFile {
    ghost taken = { λ file. file.sink.0 };

    ghost contents = { λ _. None };

    ghost failures = { λ file. file.sink.1 };

    fn put(&mut self, piece: &[u8]) -> Result<usize, SinkFault> {
        self.sink.put(piece)
    }
}

/// Files in memory, with the paths of the openings that were refused and of the creations, the last first.
#[derive(Drop)]
pub struct MemoryFiles {
    alloc: Global,
    slots: Slots,
    unopened: LinkedList<Vec<u8>>,
    created: LinkedList<Vec<u8>>,
}

impl MemoryFiles {
    /// No file at all.
    pub fn new(alloc: Global) -> Self {
        MemoryFiles {
            alloc,
            slots: BTreeMap::new(alloc),
            unopened: LinkedList::new(alloc),
            created: LinkedList::new(alloc),
        }
    }

    /// Puts a file with these bytes at a path.
    pub fn add(&mut self, path: &str, bytes: &[u8]) -> Result<(), AllocError> {
        put(self.alloc, &mut self.slots, path, bytes)?;
        Ok(())
    }
}

/// Puts a file with these bytes at a path, and answers where they are.
fn put(
    alloc: Global,
    slots: &mut Slots,
    path: &str,
    bytes: &[u8],
) -> Result<Rc<RefCell<Vec<u8>>>, AllocError> {
    let slot = Rc::new(alloc, RefCell::new(bytes.to_vec(alloc)?))?;
    slots.insert(String::from_str(alloc, path)?, slot.clone()?)?;
    Ok(slot)
}

/// The bytes of the file at a path.
fn bytes_at(alloc: Global, slots: &Slots, path: &str) -> Result<Option<Vec<u8>>, AllocError> {
    let Some(slot) = slots.get(path) else {
        return Ok(None);
    };
    match slot.try_borrow() {
        Ok(bytes) => Ok(Some(bytes.as_slice().to_vec(alloc)?)),
        Err(_) => Ok(None),
    }
}

/// Puts a path before the others.
fn push_path(alloc: Global, paths: &mut LinkedList<Vec<u8>>, path: &str) -> Result<(), AllocError>
    ensures noted { OnOk result
        (map (λ noted. noted.items) paths.new ≡ path.now ∷ map (λ noted. noted.items) paths.old) }
    ensures err { OnErr result (paths.new ≡ paths.old) }
{
    paths.push_front(path.as_bytes().to_vec(alloc)?)?;
    Ok(())
}

impl Files for MemoryFiles {
    type Input = MemorySource;

    type Output = MemoryFile;

    ghost content = { λ _ _. None };

    ghost tried = { λ files. record {
      unopened = map (λ path. path.items) files.unopened;
      uncreated = [];
      created = map (λ path. path.items) files.created;
    } };

    fn open(&mut self, path: &str) -> Result<MemorySource, FileFault> {
        if let Some(bytes) = bytes_at(self.alloc, &self.slots, path)? {
            return Ok(MemorySource::new(bytes));
        }
        push_path(self.alloc, &mut self.unopened, path)?;
        Err(FileFault::CannotOpen)
    }

    fn create(&mut self, path: &str) -> Result<MemoryFile, FileFault> {
        let slot = put(self.alloc, &mut self.slots, path, b"")?;
        push_path(self.alloc, &mut self.created, path)?;
        let sink = MemorySink::new(self.alloc);
        Ok(MemoryFile { sink, slot })
    }
}
