// Why a request is refused.
use host_base::Cause;

/// A fault that was found in a request.
#[derive(Clone, Copy, Debug)]
pub struct Fault {
    pub cause: Cause,
    pub bare: bool,
}
