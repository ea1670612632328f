// Reads a file into a lent buffer.
#![tactic(auto)]

ghost use Rattle.std.specs.Prelude.{◌≡◌, ◌≤◌, length, IfSome};
ghost use Rattle.files.specs.Reading.{Reads};

use std::io::{ErrorKind, Read};
use std::rt::Files;
use std::{fs, str};

// How often a read that signals interrupt is made.
const ATTEMPTS: usize = 1000;

// Reads the file from its start until the buffer is full, the file ends, or 65,537 bytes are read: one more than the longest text has, so that a
// longer one is noticed. Returns how many bytes were read. None of a file that cannot be read, and the buffer is left as it was: one that is missing, is a
// folder, has a path that is no UTF-8, or fails to be read.
pub fn read(rt: &impl Files, path: &[u8], buf: &mut [u8]) -> Option<usize>
    ensures { Reads result buf.old buf.new }
{
    let mut room = [0u8; 65537];
    read_in(rt, path, &mut room, buf)
}

// Reads into the room, and copies the bytes into the buffer once the whole reading has succeeded: a read can fail after others brought bytes.
fn read_in(rt: &impl Files, path: &[u8], room: &mut [u8], buf: &mut [u8]) -> Option<usize>
    requires { length room.old ≡ 65537 }
    ensures { Reads result buf.old buf.new }
{
    let wanted = room.len().min(buf.len());
    let read = fetch(rt, path, &mut room[0..wanted]);
    let n = read.unwrap_or(0);
    emit::put(buf, 0, &room[0..n]);
    read
}

// Opens the file and fills the room from it. The library takes a path as text, so one that is not UTF-8 cannot be opened.
fn fetch(rt: &impl Files, path: &[u8], room: &mut [u8]) -> Option<usize>
    ensures { IfSome result (λ n. n ≤ length room.new) }
{
    let name = str::from_utf8(path).ok()?;
    let mut file = fs::open(rt, name).ok()?;
    fill(&mut file, room)
}

// Each round asks for all that is left of the room. Of full room nothing is left, and that round is the last; so a folder is noticed
// even where there is no room.
fn fill(file: &mut impl Read, room: &mut [u8]) -> Option<usize>
    ensures { IfSome result (λ n. n ≤ length room.new) }
{
    let mut done: usize = 0;
    loop {
        let n = attempt(file, &mut room[done..])?;
        if n == 0 {
            return Some(done);
        }
        done += n;
    }
}

// One read, made again where a signal interrupted it. None where it fails.
fn attempt(file: &mut impl Read, buf: &mut [u8]) -> Option<usize>
    ensures { IfSome result (λ n. n ≤ length buf.new) }
{
    for _ in 0..ATTEMPTS {
        match file.read(buf) {
            Ok(n) => return Some(n),
            Err(e) => {
                if e.kind() != ErrorKind::Interrupted {
                    return None;
                }
            }
        }
    }
    None
}
