use super::*;
use fixed_num::Scale;
use instance_files::read_instance;
use std::test::*;

#[test]
fn generated_files(rt: HostRuntime) -> Result<(), Fail> {
    for (format, calls, wanted) in [
        (Format::Op, 0, "120 2\n50 50 0\n50 50 0\n"),
        (Format::Op, 1, "120 2\n50 50 0\n50 50 0\n94 16 7\n"),
        (
            Format::Top,
            2,
            "n 4\nm 2\ntmax 60\n50 50 0\n94 16 7\n7 60 4\n50 50 0\n",
        ),
        (
            Format::Toptw,
            1,
            "0 2 2 0\n0 0\n0 50 50 0 0 0 0 0 240\n1 94 16 10 7 0 0 37 97\n",
        ),
    ] {
        let text = generate(rt.alloc(), 0, calls, format)?;
        assert!(rt;
            text.as_slice() == wanted.as_bytes(),
            "{format:?} with {calls} calls"
        );
    }
    Ok(())
}

#[test]
fn generated_files_are_read(rt: HostRuntime) -> Result<(), Fail> {
    for (format, calls, closing) in [(Format::Top, 2, 600), (Format::Toptw, 1, 970)] {
        let text = generate(rt.alloc(), 0, calls, format)?;
        let instance = read_instance(rt.alloc(), text.as_slice(), format, Scale::Ten, None)?;
        assert!(rt; instance.calls() == calls, "the calls of {format:?}");
        assert!(rt; instance.closing(1) == closing, "the window of {format:?}");
    }
    Ok(())
}
