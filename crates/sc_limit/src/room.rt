use libc::types::rlimit;
use std::fs;
use std::rt::Files;

// What the system calls the limit on the size of a file, and how it says that there is none.
const RLIMIT_FSIZE: i32 = 1;

const RLIM_INFINITY: u64 = u64::MAX;

/// A stream that a program writes.
#[derive(Clone, Copy, Debug, PartialEq, Eq)]
pub enum Stream {
    /// Standard output.
    Output,
    /// Standard error.
    Errors,
}

/// How many bytes may be written to the stream before the file that it is reaches the limit on its
/// size. `None` where there is no limit, where the stream is no file, as a pipe, a terminal or a
/// device, and where the system doesn't tell, as without `/proc`.
///
/// The next byte is taken to stand at the stream's place, or at the file's end where that is later:
/// there it stands if the stream appends. So a program that is to write over the front of a longer
/// file is given less room than it has. What others write to the file afterwards isn't counted.
pub fn room_of<R: Files>(rt: &R, stream: Stream) -> Option<u64> {
    let limit = size_limit()?;
    let next = next_byte(rt, stream)?;
    Some(limit.saturating_sub(next))
}

/// How many bytes may be added to the file at this path before it reaches the limit on its size.
/// `None` where there is no limit, where the path leads to no file, as to a pipe or a device, and
/// where the system doesn't tell. What others write to the file afterwards isn't counted.
pub fn room_behind<R: Files>(rt: &R, path: &str) -> Option<u64> {
    let limit = size_limit()?;
    let file = fs::metadata(rt, path).ok()?;
    if !file.is_file() {
        return None;
    }
    Some(limit.saturating_sub(file.len()))
}

// The most bytes that a file may have.
fn size_limit() -> Option<u64> {
    let mut limit = rlimit {
        rlim_cur: RLIM_INFINITY,
        rlim_max: RLIM_INFINITY,
    };
    let answer = libc::getrlimit(RLIMIT_FSIZE, &mut limit);
    (answer == 0 && limit.rlim_cur != RLIM_INFINITY).then_some(limit.rlim_cur)
}

// Where the next byte of a stream stands that is a file.
fn next_byte<R: Files>(rt: &R, stream: Stream) -> Option<u64> {
    let (number, path) = match stream {
        Stream::Output => (libc::STDOUT_FILENO, "/proc/self/fd/1"),
        Stream::Errors => (libc::STDERR_FILENO, "/proc/self/fd/2"),
    };
    let file = fs::metadata(rt, path).ok()?;
    if !file.is_file() {
        return None;
    }
    let place = u64::try_from(libc::lseek(number, 0, libc::SEEK_CUR)).unwrap_or(0);
    Some(place.max(file.len()))
}
