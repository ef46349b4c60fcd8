//! Large parts of entries, which are copied without taking memory.
ghost use Rattle.std.specs.Prelude.{◌≡◌, IfOk};
ghost use Rattle.std.specs.Arc.{arc_value};

use std::alloc::Global;
use std::marker::Model;
use std::sync::Arc;
use t32_base::streams::NoMemory;

/// A value that its copies share. Contracts see the value.
#[derive(Drop)]
pub struct Shared<T> {
    handle: Arc<T>,
}

impl<T> Model for Shared<T> {
    ghost use Rattle.std.specs.Arc.{arc_value};

    ghost Value = { T };

    ghost coded = { T.code };

    ghost view = { λ s. arc_value s.handle };
}

impl<T> Shared<T> {
    /// A value to share. After want of memory it is dropped.
    pub fn new(alloc: Global, value: T) -> Result<Self, NoMemory>
    where
        T: Drop,
        ensures { IfOk result (λ s. s ≡ value) }
    {
        Ok(Shared {
            handle: Arc::new(alloc, value)?,
        })
    }

    /// The same value. Takes no memory.
    pub fn copy(&self) -> Result<Self, NoMemory>
        ensures { IfOk result (λ c. c ≡ self.now) }
    {
        Ok(Shared {
            handle: Arc::try_clone(&self.handle)?,
        })
    }

    /// The value.
    pub fn get(&self) -> &T
        ensures { result.now ≡ self.now }
    {
        &self.handle
    }
}
