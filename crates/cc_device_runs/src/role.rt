// What functions do with devices.
ghost use Rattle.std.specs.Prelude.{◌≡◌, ◌≤◌, IfOk, length, map, slice_get};
ghost use Rattle.cc_device_runs.specs.Roles as spec;

use cc_base::Memory;
use cc_device::Device;
use cc_program::{FuncId, Function, FunctionKind};
use std::alloc::Global;

/// The device that a function writes, and the one that it reads.
#[derive(Clone, Copy)]
pub struct Role {
    pub writes: Option<u32>,
    pub reads: Option<u32>,
}

// The first device that the function of this name writes.
fn writer_of(devices: &[Device], name: &str) -> Option<u32>
    requires { length devices.now ≤ 64 }
    ensures { result ≡ spec.writer_from 0 devices.now name.now }
{
    for (v, device) in devices.iter().enumerate() {
        if device.is_written_by(name) {
            return Some(v as u32);
        }
    }
    None
}

// The first device that the function of this name reads.
fn reader_of(devices: &[Device], name: &str) -> Option<u32>
    requires { length devices.now ≤ 64 }
    ensures { result ≡ spec.reader_from 0 devices.now name.now }
{
    for (v, device) in devices.iter().enumerate() {
        if device.is_read_by(name) {
            return Some(v as u32);
        }
    }
    None
}

// What a function does with devices: one with a body nothing.
fn role_of(devices: &[Device], function: &Function) -> Role
    requires { length devices.now ≤ 64 }
    ensures { result ≡ spec.role_of devices.now function.now }
{
    match function.kind {
        FunctionKind::Environment => Role {
            writes: writer_of(devices, function.name.as_str()),
            reads: reader_of(devices, function.name.as_str()),
        },
        FunctionKind::Defined => Role {
            writes: None,
            reads: None,
        },
    }
}

/// What each function does with devices.
pub fn roles_of(
    alloc: Global,
    devices: &[Device],
    functions: &[Function],
) -> Result<Vec<Role>, Memory>
    requires { length devices.now ≤ 64 }
    ensures { IfOk result (λ roles. roles.items ≡ map (spec.role_of devices.now) functions.now) }
{
    let mut roles = Vec::new(alloc);
    for function in functions {
        roles.push(role_of(devices, function))?;
    }
    Ok(roles)
}

/// What the function of this number does with devices.
pub fn role_at(roles: &[Role], f: FuncId) -> Role
    ensures { result ≡ spec.role_or (slice_get roles.now f.0) }
{
    match roles.get(f.0 as usize).copied() {
        Some(role) => role,
        None => Role {
            writes: None,
            reads: None,
        },
    }
}
