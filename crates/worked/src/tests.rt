// The first example, run as a test: that its report is made where there is memory is no clause.
use crate::late_note;
use std::test::Fail;

#[test]
fn late_note_is_reported(rt: HostRuntime) -> Result<(), Fail> {
    let out = late_note(rt.alloc())?;
    assert!(rt;
        out.as_slice() == b"no 4 9\nlog 0 up 0 1\nlog 1 up 0 1\nsteps 16 rest\n".as_slice()
    );
    Ok(())
}
