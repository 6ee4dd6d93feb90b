// Files read into buffers.
#![tactic(auto)]

ghost use Rattle.std.specs.Prelude.{◌≤◌, length};

use std::io::Read;
use std::rt::Files;
use std::{fs, str};

// Reads until the buffer is full, the file ends or a read fails; gives how many bytes it put at the start of the buffer.
pub fn read_full(from: &mut impl Read, buf: &mut [u8]) -> usize
    ensures { result ≤ length buf.new }
{
    let mut done = 0;
    while done < buf.len() {
        match from.read(&mut buf[done..]) {
            Ok(0) | Err(_) => break,
            Ok(n) => done += n,
        }
    }
    done
}

// Reads the file of this name into the page, and gives what it read. Where the file cannot be opened, it says so on standard error, and that is nothing.
pub fn load<'a>(rt: &(impl Files + Eprint), name: &[u8], page: &'a mut [u8]) -> &'a [u8]
    ensures { length result.now ≤ length page.old }
{
    let Ok(path) = str::from_utf8(name) else {
        let _ = eprintln!(rt; "the name of a file is no text");
        return b"";
    };
    match fs::open(rt, path) {
        Ok(mut file) => {
            let done = read_full(&mut file, page);
            &page[..done]
        }
        Err(error) => {
            let _ = eprintln!(rt; "{path}: {error}");
            b""
        }
    }
}
