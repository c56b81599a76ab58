// Bytes as a project.
ghost use Rattle.std.specs.Prelude.{IfOk, IfErr};
ghost use Rattle.cc_project.specs.Outcome.{IsProject, IsFault};

use crate::fault::ProjectFault;
use crate::project::Project;
use crate::{content, shape};
use std::alloc::Global;
use toml::Value;

/// What a project file says.
///
/// # Errors
///
/// `NotToml` where the bytes are no UTF-8 or TOML refuses them; `Shape` at the first of the rules J1 to J18 that the
/// document breaks, in the order of `docs/project-file.md`; `Memory` where memory is wanting.
pub fn read_project(alloc: Global, bytes: &[u8]) -> Result<Project, ProjectFault>
    ensures ok { IfOk result (IsProject bytes.now) }
    ensures err { IfErr result (IsFault bytes.now) }
{
    let document = match toml::table_from_slice(alloc, bytes) {
        Ok(table) => Value::Table(table),
        Err(fault) => {
            return Err(if fault.is_memory() {
                ProjectFault::Memory
            } else {
                ProjectFault::NotToml
            });
        }
    };
    shape::check(alloc, &document)?;
    match content::project(alloc, &document) {
        Ok(project) => Ok(project),
        Err(_) => Err(ProjectFault::Memory),
    }
}
