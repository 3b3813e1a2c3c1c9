//! The handle.

ghost use Rattle.std.specs.Prelude.{◌≡◌, Option, Some, None, IfSome, IfNone};
ghost use Rattle.uds_unit.specs.Device.{DeviceState};

use crate::device::Device;
use crate::loose::Loose;
use std::alloc::Global;
use std::marker::Model;

/// A unit on the heap, or nothing. C sees a flag and a pointer.
#[repr(C)]
#[derive(Drop)]
pub struct Handle {
    is_open: bool,
    at: *mut u8,
    alloc: Global,
    /// The unit, where the handle is open.
    pub ghost unit: { Option DeviceState },
}

impl Model for Handle {
    ghost use Rattle.std.specs.Prelude.{Option};
    ghost use Rattle.uds_unit.specs.Handle.{handle_owns};
    ghost use Rattle.uds_unit.specs.contracts.device.Device.{the_row as device_row};

    ghost also_owns = { λ h. handle_owns device_row h.alloc h.is_open h.at h.unit };
}

impl Handle {
    /// A handle that isn't open.
    pub fn closed(alloc: Global) -> Handle
        ensures { result.unit ≡ None }
    {
        Handle {
            is_open: false,
            at: std::ptr::null_mut(),
            alloc,
        }
    }

    /// A handle that is open, of a unit whose box was taken apart.
    fn of(whole: Loose<Device, Global>) -> Handle
        ensures { result.unit ≡ Some whole.value }
    {
        let Loose { at, alloc } = whole;
        Handle {
            is_open: true,
            at: at as *mut u8,
            alloc,
        }
    }

    /// The unit of an open handle, as its pointer.
    fn into_loose(self) -> Option<Loose<Device, Global>>
        ensures { IfSome result (λ b. self.unit ≡ Some b.value) × IfNone result (self.unit ≡ None) }
    {
        let Handle { is_open, at, alloc } = self;
        if is_open {
            return Some(Loose {
                at: at as *mut Device,
                alloc,
            });
        }
        None
    }

    /// A handle that is open, of this unit.
    pub fn opened(whole: Box<Device>) -> Handle
        ensures { result.unit ≡ Some whole.value }
    {
        Handle::of(Loose::of(whole))
    }

    /// The unit of an open handle.
    pub fn into_box(self) -> Option<Box<Device>>
        ensures some { IfSome result (λ b. self.unit ≡ Some b.value) }
        ensures none { IfNone result (self.unit ≡ None) }
    {
        match self.into_loose() {
            Some(loose) => Some(loose.into_box()),
            None => None,
        }
    }
}
