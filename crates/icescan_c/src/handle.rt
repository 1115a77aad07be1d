//! Handles: what a caller in C holds.

ghost use Rattle.std.specs.Prelude.{◌≡◌, Some, None, MatchOption, OnErr, OnOk};
ghost use Rattle.std.specs.declared.option.Option.{Option};
ghost use Rattle.icescan_c.specs.declared.held.Held.{Held};
ghost use Rattle.icescan_c.specs.Handles.{held_at, held_coded};

use crate::held::Held;
use crate::loose::Loose;
use std::alloc::{AllocError, Global};
use std::marker::Model;
use std::mem::replace;
use std::ptr::null_mut;

/// What a caller in C holds: a pointer, which is null where it holds nothing.
#[repr(C)]
pub struct Handle {
    // The box's pointer: a pointer to `Held` may not cross to C, since what `Held` owns is read through a `&` too.
    at: *mut u8,
    alloc: Global,
    pub ghost held: { Option Held } by { held_coded },
}

impl Model for Handle {
    ghost also_owns = { λ h. held_at h.alloc h.at h.held };
}

impl Handle {
    fn of_loose(loose: Loose<Held, Global>) -> Handle
        ensures { result.held ≡ Some loose.value }
    {
        let Loose { at, alloc } = loose;
        Handle {
            at: at as *mut u8,
            alloc,
        }
    }

    fn into_loose(self) -> Option<Loose<Held, Global>>
        ensures { MatchOption result (self.held ≡ None) (λ l. self.held ≡ Some l.value) }
    {
        let Handle { at, alloc } = self;
        if at.is_null() {
            None
        } else {
            Some(Loose {
                at: at as *mut Held,
                alloc,
            })
        }
    }

    /// The handle that holds nothing.
    pub(crate) fn empty(alloc: Global) -> Handle
        ensures { result.held ≡ None }
    {
        Handle {
            at: null_mut(),
            alloc,
        }
    }

    /// What the handle held, which holds nothing then.
    pub(crate) fn take(&mut self, alloc: Global) -> Option<Box<Held>>
        ensures taken { MatchOption result (self.old.held ≡ None) (λ b. self.old.held ≡ Some b.value) }
        ensures empty { self.new.held ≡ None }
    {
        match replace(self, Handle::empty(alloc)).into_loose() {
            Some(loose) => Some(loose.into_box()),
            None => None,
        }
    }

    /// Has the handle hold what a box holds. What it held before is gone.
    pub(crate) fn put(&mut self, held: Box<Held>)
        ensures { self.new.held ≡ Some held.value }
    {
        if let Some(loose) = replace(self, Handle::of_loose(Loose::of(held))).into_loose() {
            drop(loose.into_box());
        }
    }

    /// Has the handle hold this, in the room that it had or in new room. A refusal, for want of memory, leaves it as it
    /// was.
    pub(crate) fn hold(&mut self, alloc: Global, held: Held) -> Result<(), AllocError>
        ensures ok { OnOk result (self.new.held ≡ Some held) }
        ensures err { OnErr result (self.new.held ≡ self.old.held) }
    {
        match self.take(alloc) {
            Some(mut room) => {
                room.set(held);
                self.put(room);
            }
            None => self.put(Box::new(alloc, held)?),
        }
        Ok(())
    }
}

// Where the caller orders two threads, a handle may go from one to the other.
unsafe impl Send for Handle {}
