// Input that comes in parts, and reads and writes that fail after some bytes, by readers and writers in memory.
use super::*;
use std::test::Fail;

// A reader whose peer has reset the connection.
#[derive(Drop)]
struct Reset;

impl Read for Reset {
    fn read(&mut self, _buffer: &mut [u8]) -> io::Result<usize> {
        Err(io::Error::from_raw_os_error(104))
    }
}

// A device with room for so many bytes more.
#[derive(Drop)]
struct Device {
    room: usize,
}

impl Write for Device {
    fn write(&mut self, bytes: &[u8]) -> io::Result<usize> {
        if self.room == 0 {
            return Err(io::Error::from_raw_os_error(28));
        }
        let taken = bytes.len().min(self.room);
        self.room -= taken;
        Ok(taken)
    }

    fn flush(&mut self) -> io::Result<()> {
        Ok(())
    }
}

#[test]
fn input_in_parts_is_read_to_its_end(rt: HostRuntime) -> Result<(), Fail> {
    let mut stderr = Vec::new(rt.alloc());
    let mut input = [0u8; 8];
    let mut stdin = b"ab".as_slice().chain(b"cde".as_slice());
    let read = read_input(&mut stdin, &mut stderr, &mut input);
    assert!(rt; matches!(read, Ok(5)));
    assert_eq!(rt; input, *b"abcde\0\0\0");
    assert!(rt; stderr.is_empty());
    Ok(())
}

#[test]
fn a_full_buffer_ends_the_reading(rt: HostRuntime) -> Result<(), Fail> {
    let mut stderr = Vec::new(rt.alloc());
    let mut input = [0u8; 3];
    let mut stdin = b"abc".as_slice().chain(Reset);
    let read = read_input(&mut stdin, &mut stderr, &mut input);
    assert!(rt; matches!(read, Ok(3)));
    assert_eq!(rt; input, *b"abc");
    assert!(rt; stderr.is_empty());
    Ok(())
}

#[test]
fn a_read_that_fails_in_mid_stream_is_told(rt: HostRuntime) -> Result<(), Fail> {
    let mut stderr = Vec::new(rt.alloc());
    let mut input = [0u8; 8];
    let mut stdin = b"abc".as_slice().chain(Reset);
    let read = read_input(&mut stdin, &mut stderr, &mut input);
    assert!(rt; matches!(read, Err(ReadFailed)));
    assert_eq!(rt;
        stderr.as_slice(),
        b"standard input: Connection reset by peer\n".as_slice()
    );
    Ok(())
}

#[test]
fn a_write_that_fails_in_mid_stream_is_told(rt: HostRuntime) -> Result<(), Fail> {
    let mut stderr = Vec::new(rt.alloc());
    write_output(&mut Device { room: 3 }, &mut stderr, b"abc");
    assert!(rt; stderr.is_empty());
    write_output(&mut Device { room: 2 }, &mut stderr, b"abc");
    assert_eq!(rt;
        stderr.as_slice(),
        b"standard output: No space left on device\n".as_slice()
    );
    Ok(())
}

#[test]
fn a_line_is_written_to_standard_error(rt: HostRuntime) -> Result<(), Fail> {
    let mut stderr = Vec::new(rt.alloc());
    write_error(&mut stderr, b"refused 14\n");
    assert_eq!(rt; stderr.as_slice(), b"refused 14\n".as_slice());
    Ok(())
}
