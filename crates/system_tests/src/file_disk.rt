use fuxi_io::{Disk, Failed, FileDisk};
use std::fs;
use std::fs::File;
use std::test::Fail;

const PATH: &str = "file_disk.bin";

// A file of the system is written and read back, and a range that it no longer has is a fault.
#[test]
fn a_file_is_written_and_read_back(rt: HostRuntime) -> Result<(), Fail> {
    fs::write(&rt, PATH, b"".as_slice())?;
    let file = File::options().read(true).write(true).open(&rt, PATH);
    let mut disk = FileDisk::of(file.ok());
    let mut back = [0; 4];
    assert_eq!(rt; disk.write_at(0, b"abcdef"), Ok(()));
    assert_eq!(rt; disk.sync(), Ok(()));
    let size = disk.len().unwrap_or(0);
    assert_eq!(rt; size, 6);
    if size >= 5 {
        assert_eq!(rt; disk.read_at(1, &mut back), Ok(()));
    }
    assert_eq!(rt; back, *b"bcde");

    fs::write(&rt, PATH, b"ab".as_slice())?;
    if size >= 5 {
        assert_eq!(rt; disk.read_at(1, &mut back), Err(Failed));
    }
    fs::remove_file(&rt, PATH)?;
    Ok(())
}
