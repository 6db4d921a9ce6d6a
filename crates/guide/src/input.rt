// What a command reads.
use std::fs::File;
use std::io;
use std::io::Read;
use syntax::MOST_BYTES;

// The bytes of a file, or of standard input for `-`; of a longer input only as many as show that it is too long.
pub(crate) fn read_input(rt: &HostRuntime, file: &str) -> io::Result<Vec<u8>> {
    let limit = MOST_BYTES as u64 + 1;
    let mut bytes = Vec::new(rt.alloc());
    if file == "-" {
        rt.stdin().take(limit).read_to_end(&mut bytes)?;
    } else {
        File::open(rt, file)?.take(limit).read_to_end(&mut bytes)?;
    }
    Ok(bytes)
}
