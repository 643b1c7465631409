//! The statements of a book that `report` alone prints.

ghost use Rattle.std.specs.Prelude.{◌≡◌, IfOk};
ghost use Rattle.cf_calls.specs.Common.{IsYear};
ghost use Rattle.cf_classes.specs.Statements as spec;

use crate::book::Book;
use cf_calls::Row;
use cf_disk::Disk;
use cf_office_looks::{class_rows, component_rows, major_rows};
use std::alloc::{AllocError, Global};

impl<D: Disk + Drop> Book<D> {
    /// The rows of the classes of fund balances through a fiscal year from 1971 to 2199 (GASB
    /// Statement 54), in cents. They are read off running numbers, and it fails exactly for want of
    /// memory.
    pub fn class_rows(&self, alloc: Global, year: u16) -> Result<Vec<Row>, AllocError>
        requires { IsYear year }
        ensures { IfOk result
            (λ rows. rows.items ≡ spec.class_rows self.now.plan self.now.entries year) }
    {
        class_rows(alloc, &self.history(), year)
    }

    /// The rows of the components of net position through a fiscal year from 1971 to 2199 (GASB
    /// Statement 34), in cents. They are read off running numbers, and it fails exactly for want of
    /// memory.
    pub fn component_rows(&self, alloc: Global, year: u16) -> Result<Vec<Row>, AllocError>
        requires { IsYear year }
        ensures { IfOk result
            (λ rows. rows.items ≡ spec.component_rows self.now.plan self.now.entries year) }
    {
        component_rows(alloc, &self.history(), year)
    }

    /// The rows of the major funds of a fiscal year from 1971 to 2199 (GASB Statement 34), in
    /// cents. They are read off running numbers, and it fails exactly for want of memory.
    pub fn major_rows(&self, alloc: Global, year: u16) -> Result<Vec<Row>, AllocError>
        requires { IsYear year }
        ensures { IfOk result
            (λ rows. rows.items ≡ spec.major_rows self.now.plan self.now.entries year) }
    {
        major_rows(alloc, &self.history(), year)
    }
}
