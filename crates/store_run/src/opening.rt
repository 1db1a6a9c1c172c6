//! A store that isn't opened.
ghost use Rattle.std.specs.Prelude.{◌≡◌};
ghost use Rattle.store_run.specs.Statuses.{open_status};

use crate::status::Status;
use recovery::OpenFault;

/// The status of an opening that was refused.
pub fn refused(fault: OpenFault) -> Status
    ensures { result ≡ open_status fault }
{
    match fault {
        OpenFault::DiskFault => Status::DiskFault,
        OpenFault::NotAStore => Status::NotAStore,
        OpenFault::Damaged { at } => Status::Damaged { at },
        OpenFault::Memory => Status::Memory,
    }
}
