// The device couplings that `devices` answers with.
//
// Each step that reads the shelf says what the module `steps` says.
ghost use Rattle.std.specs.Prelude.{◌≡◌, ◌≢◌, ◌≤◌, ◌⊎◌, All, IfErr, IfSome, length};
ghost use Rattle.cc_tests.specs.Bound.{AreBound};
ghost use Rattle.cc_top.specs.Answer.{AfterRead, OfDeviceProgram, OfDevices};
ghost use Rattle.cc_top.specs.Counts.{Caused, NoneFalls, counts_of};
ghost use Rattle.cc_top.specs.Holds.{IsShort};
ghost use Rattle.cc_top.specs.Reads.{IsIncludedIn};
ghost use Rattle.cc_top.specs.Refusal.{FaultNames, IsOfInput, status_of};
ghost use Rattle.cc_top.specs.Tells.{Tells};

use crate::faults::{of_device_report, of_devices, of_front};
use crate::output::Output;
use crate::reading::read_file;
use crate::refusal::Refusal;
use cc_base::List;
use cc_device::{DeviceMap, read_devices};
use cc_device_runs::report_devices;
use cc_front::{Built, front};
use cc_io::{ByteList, Shelf};
use cc_project::Project;
use std::alloc::Global;

// The report on these devices of a program.
fn program_reported(alloc: Global, built: &Built, all: &DeviceMap) -> Result<Output, Refusal>
    requires few { length all.now ≤ 64 }
    ensures told { Tells (OfDeviceProgram built.now.program built.now.tests all.now) result }
    ensures input { IfErr result IsOfInput }
{
    match report_devices(alloc, &built.program, &built.tests, all) {
        Ok(report) => Ok(Output {
            text: report.text,
            is_met: report.is_met,
        }),
        Err(fault) => Err(of_device_report(fault)),
    }
}

// The report on the devices of a program, where these are the bytes of the file of devices of this name.
fn built_reported(
    alloc: Global,
    name: &str,
    project: &Project,
    built: &Built,
    bytes: &[u8],
) -> Result<Output, Refusal>
    requires bound { AreBound built.now.program project.now.tests built.now.tests }
    ensures told { Tells (OfDevices name.now project.now bytes.now) result }
    ensures input { IfErr result IsOfInput }
{
    match read_devices(alloc, project, bytes) {
        Ok(all) => program_reported(alloc, built, &all),
        Err(fault) => Err(of_devices(alloc, name, fault)),
    }
}

// The report on the devices of the program of files that are read, where these are the bytes of the file of devices of this
// name.
fn files_reported<S: Shelf>(
    alloc: Global,
    shelf: &mut S,
    name: &str,
    project: &Project,
    files: &List<ByteList>,
    bytes: &[u8],
) -> Result<Output, Refusal>
    requires few { length files.now ≤ 64 }
    requires short { All IsShort files.now }
    ensures keeps { S.files shelf.new ≡ S.files shelf.old }
    ensures none_falls { NoneFalls (counts_of (S.faults shelf.old) (S.misses shelf.old) (S.longs shelf.old))
        (counts_of (S.faults shelf.new) (S.misses shelf.new) (S.longs shelf.new)) }
    ensures told { Tells (OfDevices name.now project.now bytes.now) result }
    ensures caused { IfErr result (Caused (counts_of (S.faults shelf.old) (S.misses shelf.old) (S.longs shelf.old))
        (counts_of (S.faults shelf.new) (S.misses shelf.new) (S.longs shelf.new))) }
    ensures kind { IfErr result (λ refusal. status_of refusal ≢ 2) }
    ensures names { IfSome (S.files shelf.old) (λ held. IfErr result
        (FaultNames (IsIncludedIn held files.now))) }
{
    match front(alloc, shelf, project, files) {
        Ok(built) => built_reported(alloc, name, project, &built, bytes),
        Err(fault) => Err(of_front(alloc, project, fault)),
    }
}

/// The report on the devices of the program of files that are read, by the file of devices of this name, which is read first.
pub fn devices_reported<S: Shelf>(
    alloc: Global,
    shelf: &mut S,
    name: &str,
    project: &Project,
    files: &List<ByteList>,
) -> Result<Output, Refusal>
    requires few { length files.now ≤ 64 }
    requires short { All IsShort files.now }
    ensures keeps { S.files shelf.new ≡ S.files shelf.old }
    ensures none_falls { NoneFalls (counts_of (S.faults shelf.old) (S.misses shelf.old) (S.longs shelf.old))
        (counts_of (S.faults shelf.new) (S.misses shelf.new) (S.longs shelf.new)) }
    ensures told { IfSome (S.files shelf.old) (λ held.
        Tells (AfterRead held name.now (OfDevices name.now project.now)) result) }
    ensures caused { IfErr result (Caused (counts_of (S.faults shelf.old) (S.misses shelf.old) (S.longs shelf.old))
        (counts_of (S.faults shelf.new) (S.misses shelf.new) (S.longs shelf.new))) }
    ensures kind { IfErr result (λ refusal. status_of refusal ≢ 2) }
    ensures names { IfSome (S.files shelf.old) (λ held. IfErr result
        (FaultNames (λ told. (told ≡ name.now) ⊎ IsIncludedIn held files.now told))) }
{
    match read_file(alloc, shelf, name) {
        Ok(file) => files_reported(alloc, shelf, name, project, files, file.bytes()),
        Err(refusal) => Err(refusal),
    }
}
