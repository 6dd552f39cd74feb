// How the faults of devices are printed.
use outside_desk::{DeskFault, ReadFault, SinkFault};
use std::test::Fail;

const DESK_FAULTS: &[(DeskFault, &str)] = &[
    (DeskFault::Missing, "no such file"),
    (DeskFault::Failed, "the desk failed"),
    (DeskFault::OutOfMemory, "out of memory"),
];

const SINK_FAULTS: &[(SinkFault, &str)] = &[
    (SinkFault::Failed, "the sink failed"),
    (SinkFault::OutOfMemory, "out of memory"),
];

const READ_FAULTS: &[(ReadFault, &str)] = &[
    (ReadFault::Missing, "no such file"),
    (ReadFault::Failed, "the desk failed"),
    (ReadFault::TooLong, "the file is too long"),
    (ReadFault::OutOfMemory, "out of memory"),
];

#[test]
fn faults_are_printed(rt: HostRuntime) -> Result<(), Fail> {
    let alloc = rt.alloc();
    for row in DESK_FAULTS {
        let (fault, wanted) = *row;
        let text = fault.to_string(alloc)?;
        assert_eq!(rt; text.as_str(), wanted);
    }
    for row in SINK_FAULTS {
        let (fault, wanted) = *row;
        let text = fault.to_string(alloc)?;
        assert_eq!(rt; text.as_str(), wanted);
    }
    for row in READ_FAULTS {
        let (fault, wanted) = *row;
        let text = fault.to_string(alloc)?;
        assert_eq!(rt; text.as_str(), wanted);
    }
    Ok(())
}
