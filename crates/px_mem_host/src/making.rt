// What a host in memory makes: copies of a server's options, and devices.
ghost use Rattle.std.specs.Prelude.{◌≡◌, [], ◌∷◌, ◌++◌, IfOk, OnOk, OnErr};
ghost use Rattle.px_ends.specs.Device.{IsShape};
ghost use Rattle.px_ends.specs.MemoryDevice.{new_memory_device};

use px_ends::{DeviceShape, MemDevice, ServeOptions};
use px_types::{Mem, NoMemory, Text};
use std::alloc::Global;

// A copy of options.
fn copied(alloc: Global, options: &ServeOptions) -> Mem<ServeOptions>
    ensures { IfOk result (λ copy. copy ≡ options.now) }
{
    Ok(ServeOptions {
        header: Text::copied(alloc, options.header.as_slice())?,
        socket: Text::copied(alloc, options.socket.as_slice())?,
        out: Text::copied(alloc, options.out.as_slice())?,
        accept: options.accept,
        memory: options.memory,
    })
}

/// Appends a copy of options. Without memory nothing is added.
pub(crate) fn add_copy(
    alloc: Global,
    options: &ServeOptions,
    list: &mut Vec<ServeOptions>,
) -> Mem<()>
    ensures ok { OnOk result (list.new.items ≡ list.old.items ++ options.now ∷ []) }
    ensures err { OnErr result (list.new.items ≡ list.old.items) }
{
    list.push(copied(alloc, options)?)?;
    Ok(())
}

/// A device that consumes by itself.
pub(crate) fn running(alloc: Global, shape: &DeviceShape, each: u32, total: u32) -> Mem<MemDevice>
    requires { IsShape shape.now }
    ensures { IfOk result (λ device. device ≡ record (new_memory_device shape.now) { each = each; left = total }) }
{
    let mut device = MemDevice::new(alloc, shape)?;
    device.run_on(each, total)?;
    Ok(device)
}
