// The refusals that the faults of single steps are.
ghost use Rattle.std.specs.Prelude.{◌≡◌, IfOk, slice_get};
ghost use Rattle.cc_top.specs.Refusal.{IsOfInput, RefusesProject, refusal_at, refusal_of};
ghost use Rattle.cc_top.specs.Refused.{IsRefusal};
ghost use Rattle.cc_top.specs.Refused as spec;

use crate::reading::text_of;
use crate::refusal::{At, Internal, Refusal};
use cc_base::{Memory, Spot, Text};
use cc_device::DeviceFault;
use cc_device_runs::DeviceReportFault;
use cc_front::{Fault, FrontFault, Names, PrepFault};
use cc_listing::ListFault;
use cc_meaning::TestList;
use cc_project::{Project, ProjectFault};
use cc_reports::ReportFault;
use cc_score::Conflict;
use std::alloc::Global;

/// Why the bytes of a file of this name are no project.
pub fn of_project(alloc: Global, name: &str, fault: ProjectFault) -> Refusal
    ensures { RefusesProject name.now fault result }
{
    let name = match text_of(alloc, name) {
        Ok(name) => name,
        Err(_) => return Refusal::Memory,
    };
    match fault {
        ProjectFault::NotToml => Refusal::NotToml(name),
        ProjectFault::Shape { key, rule } => Refusal::Shape { name, key, rule },
        ProjectFault::Memory => Refusal::Memory,
    }
}

// A copy of the text of this number, if there is one.
fn copy_at(alloc: Global, texts: &[Text], number: u32) -> Result<Option<Text>, Memory>
    ensures { IfOk result (λ copy. copy ≡ slice_get texts.now number) }
{
    match texts.get(number as usize) {
        Some(text) => Ok(Some(text_of(alloc, text.as_str())?)),
        None => Ok(None),
    }
}

// A copy of the name of the file of this number, if there is one.
fn file_name(alloc: Global, project: &Project, file: u32) -> Result<Option<Text>, Memory>
    ensures { IfOk result (λ name. name ≡ spec.file_name (slice_get project.now.files file)) }
{
    match project.files.as_slice().get(file as usize) {
        Some(file) => Ok(Some(text_of(alloc, file.name.as_str())?)),
        None => Ok(None),
    }
}

// A copy of the name of the test of this number, if there is one.
fn test_name(alloc: Global, project: &Project, test: u32) -> Result<Option<Text>, Memory>
    ensures { IfOk result (λ name. name ≡ spec.test_name (slice_get project.now.tests test)) }
{
    match project.tests.as_slice().get(test as usize) {
        Some(test) => Ok(Some(text_of(alloc, test.name.as_str())?)),
        None => Ok(None),
    }
}

// The functions of the project file in this list.
fn names_in(project: &Project, list: Names) -> &[Text]
    ensures { result.now ≡ spec.names_in project.now list }
{
    match list {
        Names::Entries => project.entries.as_slice(),
        Names::Environment => project.environment.as_slice(),
    }
}

// Something is wrong at a place of a file, the project's or an included one.
fn at(file: Text, spot: Spot, fault: Fault) -> Refusal
    ensures { result ≡ refusal_at file spot fault }
{
    Refusal::At(At { file, spot, fault })
}

// Something is wrong at a place of the file of this name.
fn in_file(file: Option<Text>, spot: Spot, fault: Fault) -> Refusal
    ensures { result ≡ spec.in_file file spot fault }
{
    match file {
        Some(file) => at(file, spot, fault),
        None => Refusal::Internal(Internal::Number),
    }
}

// A function of this name in one of the lists of the project file breaks a rule.
fn of_function(list: Names, name: Option<Text>, rule: u8) -> Refusal
    ensures { result ≡ spec.of_function list name rule }
{
    match (list, name) {
        (Names::Entries, Some(name)) => Refusal::Entry { name, rule },
        (Names::Environment, Some(name)) => Refusal::Environment { name, rule },
        (_, None) => Refusal::Internal(Internal::Number),
    }
}

// A call of the test of this name breaks a rule.
fn of_call(test: Option<Text>, call: u32, rule: u8) -> Refusal
    ensures { result ≡ spec.of_call test call rule }
{
    match test {
        Some(test) => Refusal::Test { test, call, rule },
        None => Refusal::Internal(Internal::Number),
    }
}

// Why a file has no tokens once its directive lines are carried out.
fn of_expansion(fault: PrepFault) -> Refusal
    ensures { result ≡ refusal_of fault }
{
    match fault {
        PrepFault::Lexical { file, spot, rule } => at(file, spot, Fault::Lexical(rule)),
        PrepFault::Directive { file, spot, rule } => at(file, spot, Fault::Directive(rule)),
        PrepFault::ReadFault { file } => Refusal::ReadFault(file),
        PrepFault::Missing { file } => Refusal::Missing(file),
        PrepFault::TooLong { file } => Refusal::TooLong(file),
        PrepFault::Memory => Refusal::Memory,
    }
}

// The refusal that a fault of the front end is.
fn of_fault(alloc: Global, project: &Project, fault: FrontFault) -> Result<Refusal, Memory>
    ensures { IfOk result (λ refusal. refusal ≡ spec.of_front project.now fault) }
{
    Ok(match fault {
        FrontFault::Expansion(fault) => of_expansion(fault),
        FrontFault::At { file, spot, fault } => {
            in_file(file_name(alloc, project, file)?, spot, fault)
        }
        FrontFault::Name { list, index, rule } => {
            of_function(list, copy_at(alloc, names_in(project, list), index)?, rule)
        }
        FrontFault::Test { test, call, rule } => {
            of_call(test_name(alloc, project, test)?, call, rule)
        }
        FrontFault::TooManyNodes => Refusal::TooManyNodes,
        FrontFault::Memory => Refusal::Memory,
    })
}

/// Why files make no program with tests.
pub fn of_front(alloc: Global, project: &Project, fault: FrontFault) -> Refusal
    ensures { IsRefusal (spec.of_front project.now fault) result }
{
    match of_fault(alloc, project, fault) {
        Ok(refusal) => refusal,
        Err(_) => Refusal::Memory,
    }
}

/// Why a program has no table.
pub fn of_listing(fault: ListFault) -> Refusal
    ensures is { result ≡ spec.of_listing fault }
    ensures input { IsOfInput result }
{
    match fault {
        ListFault::TooManyPoints { count } => Refusal::TooManyPoints(count),
        ListFault::TooManyFacts => Refusal::TooManyFacts,
        ListFault::TooManyRows => Refusal::TooManyRows,
        ListFault::Internal => Refusal::Internal(Internal::Number),
        ListFault::Memory => Refusal::Memory,
    }
}

// The refusal that a fault of the file of devices is.
fn of_devices_fault(alloc: Global, name: &str, fault: DeviceFault) -> Result<Refusal, Memory>
    ensures is { IfOk result (λ refusal. refusal ≡ spec.of_devices name.now fault) }
    ensures input { IfOk result IsOfInput }
{
    let name = text_of(alloc, name)?;
    Ok(match fault {
        DeviceFault::NotToml => Refusal::NotToml(name),
        DeviceFault::Shape { key, rule } => Refusal::DeviceShape { name, key, rule },
        DeviceFault::Memory => Refusal::Memory,
    })
}

/// Why the bytes of a file of this name say no devices.
pub fn of_devices(alloc: Global, name: &str, fault: DeviceFault) -> Refusal
    ensures is { IsRefusal (spec.of_devices name.now fault) result }
    ensures input { IsOfInput result }
{
    match of_devices_fault(alloc, name, fault) {
        Ok(refusal) => refusal,
        Err(_) => Refusal::Memory,
    }
}

/// Why there is no report on the devices of a program.
pub fn of_device_report(fault: DeviceReportFault) -> Refusal
    ensures is { result ≡ spec.of_device_report fault }
    ensures input { IsOfInput result }
{
    match fault {
        DeviceReportFault::List(fault) => of_listing(fault),
        DeviceReportFault::Lost => Refusal::Internal(Internal::Machine),
        DeviceReportFault::Memory => Refusal::Memory,
    }
}

// A copy of the name of the test of this number, if there is one.
fn bound_name(alloc: Global, tests: &TestList, test: u32) -> Result<Option<Text>, Memory>
    ensures { IfOk result (λ name. name ≡ spec.bound_name (slice_get tests.now test)) }
{
    match tests.as_slice().get(test as usize) {
        Some(test) => Ok(Some(text_of(alloc, test.name.as_str())?)),
        None => Ok(None),
    }
}

// A test of this name exercises a row with a reason.
fn of_conflict(name: Text, conflict: Conflict, test: Option<Text>) -> Refusal
    ensures is { result ≡ spec.of_conflict name conflict test }
    ensures input { IsOfInput result }
{
    match test {
        Some(test) => Refusal::Covered {
            name,
            index: conflict.index,
            row: conflict.row,
            test,
        },
        None => Refusal::Internal(Internal::Number),
    }
}

// The refusal that a fault of a report is.
fn of_report_fault(
    alloc: Global,
    name: &str,
    tests: &TestList,
    fault: ReportFault,
) -> Result<Refusal, Memory>
    ensures is { IfOk result (λ refusal. refusal ≡ spec.of_report name.now tests.now fault) }
    ensures input { IfOk result IsOfInput }
{
    let name = text_of(alloc, name)?;
    Ok(match fault {
        ReportFault::List(fault) => of_listing(fault),
        ReportFault::NoSuchRow { index } => Refusal::NoSuchRow { name, index },
        ReportFault::Covered(conflict) => {
            of_conflict(name, conflict, bound_name(alloc, tests, conflict.test)?)
        }
        ReportFault::Lost => Refusal::Internal(Internal::Machine),
        ReportFault::Unfit => Refusal::Internal(Internal::Watched),
        ReportFault::Memory => Refusal::Memory,
    })
}

/// Why there is no report on a program with these tests, where the project file has this name.
pub fn of_report(alloc: Global, name: &str, tests: &TestList, fault: ReportFault) -> Refusal
    ensures is { IsRefusal (spec.of_report name.now tests.now fault) result }
    ensures input { IsOfInput result }
{
    match of_report_fault(alloc, name, tests, fault) {
        Ok(refusal) => refusal,
        Err(_) => Refusal::Memory,
    }
}
