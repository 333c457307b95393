// Standard input for every program: all of it, or the error that it could not be read for.
#![tactic(auto)]

ghost use Rattle.std.specs.Prelude.{◌-◌, ◌≤◌, ◌≡◌, length};
ghost use Rattle.input.specs.Reading as R;

use std::io;
use std::io::Read;

// One call of the reader, into the buffer from the offset `done` on: how many bytes it moved.
fn read_from<S: Read>(from: &mut S, buf: &mut [u8], done: usize) -> io::Result<usize>
    requires { done ≤ length buf.old }
    ensures { R.Moved (length buf.old - done) (R.moved_of result) }
{
    from.read(&mut buf[done..])
}

// How many bytes a call put: none where it failed.
fn count(got: io::Result<usize>) -> usize
    ensures { result ≡ R.count_of got }
{
    got.unwrap_or(0)
}

// What reading came to, by the answer of the call that put nothing after `done` bytes: a failure is not the end.
fn ended(got: io::Result<usize>, done: usize) -> io::Result<usize>
    ensures { result ≡ R.ended_of got done }
{
    got.and(Ok(done))
}

// Reads until the buffer is full, the input ends or a read fails. No contract can say which bytes the system put there.
pub fn read<S: Read>(from: &mut S, buf: &mut [u8]) -> io::Result<usize>
    ensures { R.Within result buf.new }
{
    let mut done = 0;
    while done < buf.len() {
        let got = read_from(from, buf, done);
        let n = count(got);
        if n == 0 {
            return ended(got, done);
        }
        done += n;
    }
    Ok(done)
}

// Whether all of a part of the input came, whose length is known.
pub fn is_whole(got: io::Result<usize>, size: usize) -> bool
    ensures { result ≡ R.is_whole got size }
{
    got.is_ok_and(|n| n == size)
}
