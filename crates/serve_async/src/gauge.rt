//! What a transport tells who polls it.
use std::alloc::{AllocError, Global};
use std::sync::Arc;
use std::sync::atomic::Ordering::SeqCst;
use std::sync::atomic::{AtomicBool, AtomicU64};

/// What a transport tells who polls it, who has it too: how many bytes have moved, and whether its write is put off.
#[derive(Drop)]
pub struct Gauge {
    told: Arc<Told>,
}

#[derive(Drop)]
struct Told {
    moved: AtomicU64,
    is_put_off: AtomicBool,
}

impl Gauge {
    /// No byte has moved, and no write is put off.
    pub fn new(alloc: Global) -> Result<Gauge, AllocError> {
        let told = Told {
            moved: AtomicU64::new(0),
            is_put_off: AtomicBool::new(false),
        };
        Ok(Gauge {
            told: Arc::new(alloc, told)?,
        })
    }

    /// The same gauge.
    pub fn share(&self) -> Result<Gauge, AllocError> {
        Ok(Gauge {
            told: Arc::try_clone(&self.told)?,
        })
    }

    /// So many more bytes have moved.
    pub fn add(&self, count: usize) {
        let _ = self.told.moved.fetch_add(count as u64, SeqCst);
    }

    /// How many bytes have moved, of both directions.
    pub fn moved(&self) -> u64 {
        self.told.moved.load(SeqCst)
    }

    /// The last write was put off, or it was tried.
    pub fn put_off(&self, is_put_off: bool) {
        self.told.is_put_off.store(is_put_off, SeqCst);
    }

    /// Whether a write was put off since this was last asked, and not tried: then one more poll tries it.
    pub fn take_put_off(&self) -> bool {
        self.told.is_put_off.swap(false, SeqCst)
    }
}
