//! Values with several owners.
ghost use Rattle.std.specs.Prelude.{◌≡◌, IfOk};

use std::alloc::{AllocError, Global};
use std::marker::Model;
use std::rc::Rc;

/// A value that several own and nobody changes. A clause sees the value itself, so what is said of a value is said of a
/// shared one too.
#[derive(Debug, Drop)]
pub struct Shared<T> {
    owned: Rc<T>,
}

impl<T> Model for Shared<T> {
    ghost Value = { T };

    ghost view = { λ shared. shared.owned.value };
}

impl<T: Drop> Shared<T> {
    /// Moves a value to where it can be shared. It fails only for want of memory.
    pub fn new(alloc: Global, value: T) -> Result<Shared<T>, AllocError>
        ensures { IfOk result (λ shared. shared ≡ value) }
    {
        match Rc::new(alloc, value) {
            Ok(owned) => Ok(Shared { owned }),
            Err(_) => Err(AllocError),
        }
    }

    /// One more owner, at no cost of the value's size. It fails only where the owners can't be counted any more.
    pub fn try_clone(&self) -> Result<Shared<T>, AllocError>
        ensures { IfOk result (λ shared. shared ≡ self.now) }
    {
        let owned = self.owned.clone()?;
        Ok(Shared { owned })
    }

    /// The value.
    pub fn get(&self) -> &T
        ensures { result.now ≡ self.now }
    {
        &self.owned
    }
}
