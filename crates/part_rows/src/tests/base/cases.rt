// Tables of cases.
use host_base::NoMemory;
use std::alloc::Global;
use std::fmt::Debug;
use std::process::Abort;
use std::test::Fail;

/// Each case of a table is right. The first that is not is shown.
pub fn are_right<R: Abort, T: Debug, F: Fn(&T) -> bool>(rt: &R, table: &[T], is_right: F)
    requires { F.IsAlwaysCallable is_right }
{
    for case in table {
        assert!(rt; is_right(case), "{case:?}");
    }
}

/// Each case of a table is right, by what takes memory. The first that is not is shown.
pub fn are_right_in<R: Abort, T: Debug, F: Fn(Global, &T) -> Result<bool, NoMemory>>(
    rt: &R,
    alloc: Global,
    table: &[T],
    is_right: F,
) -> Result<(), Fail>
    requires { F.IsAlwaysCallable is_right }
{
    for case in table {
        assert!(rt; is_right(alloc, case)?, "{case:?}");
    }
    Ok(())
}
