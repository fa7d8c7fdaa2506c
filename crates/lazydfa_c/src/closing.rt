//! Closing handles.
ghost use Rattle.lazydfa_c.specs.Closing.{Closes};

use crate::code::Code;
use crate::handle::Handle;
use crate::status::Status;
use std::alloc::Global;

/// Frees what a handle owns, and closes the handle. The status is `Code::Closed` if it owned nothing.
#[unsafe(no_mangle)]
pub extern "C" fn lazydfa_raw_close(alloc: Global, handle: &mut Handle) -> Status
    ensures { Closes handle.old handle.new result }
{
    match handle.take(alloc) {
        Some(object) => {
            drop(object);
            Status::from(Code::Done)
        }
        None => Status::from(Code::Closed),
    }
}
