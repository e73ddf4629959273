// The arguments of a program, one at a time in a lent buffer.
ghost use Rattle.std.specs.Prelude.{◌≡◌, MatchResult, OnOk};

use std::env::FillError;
use std::fs::File;
use std::io::{self, ErrorKind, Read};
use std::process::ExitCode;
use std::rt::Runtime;

// Reads argument `i` into the lent buffer, where there is one. One that can be no file's name here is told on standard error.
// No contract can name what the system gives.
fn read_argument<'a>(
    rt: &impl Runtime,
    i: usize,
    buffer: &'a mut [u8],
) -> io::Result<Option<&'a str>> {
    match rt.arg(i, buffer) {
        Ok(length) => match str::from_utf8(&buffer[..length]) {
            Ok(name) => Ok(Some(name)),
            Err(_) => {
                let _ = eprintln!(rt; "argument {i}: a name that is no UTF-8");
                Err(ErrorKind::InvalidInput.into())
            }
        },
        Err(FillError::NotPresent) => Ok(None),
        Err(FillError::TooLong) => {
            let most = buffer.len();
            let _ = eprintln!(rt; "argument {i}: a name of more than {most} bytes");
            Err(ErrorKind::InvalidInput.into())
        }
    }
}

// A program that takes one input after another.
pub trait TakesInput {
    // What holds once an input is taken, up to its end.
    ghost done: { Self → Type 0 } = { λ _. Unit {0} };

    fn take<P: Print, R: Read>(&self, rt: &P, input: &mut R) -> io::Result<()>
        ensures { OnOk result (done self.now) };
}

// Takes the files that the arguments name, where `-` is standard input, or standard input where there are none.
// The first that fails is the last; that a file cannot be opened is told on standard error.
pub fn each_input<T: TakesInput>(rt: &impl Runtime, program: &T) -> io::Result<()>
    ensures { OnOk result (T.done program.now) }
{
    let mut buffer = [0u8; 4096];
    for i in 1..usize::MAX {
        match read_argument(rt, i, &mut buffer)? {
            Some("-") => program.take(rt, &mut rt.reader())?,
            Some(name) => match File::open(rt, name) {
                Ok(mut file) => program.take(rt, &mut file)?,
                Err(error) => {
                    let _ = eprintln!(rt; "{name}: {error}");
                    return Err(error);
                }
            },
            None if i > 1 => return Ok(()),
            None => return program.take(rt, &mut rt.reader()),
        }
    }
    Ok(())
}

// How a program ends.
pub fn exit_code(done: io::Result<()>) -> ExitCode
    ensures { MatchResult done (λ _. result ≡ ExitCode.SUCCESS) (λ _. result ≡ ExitCode.FAILURE) }
{
    match done {
        Ok(()) => ExitCode::SUCCESS,
        Err(_) => ExitCode::FAILURE,
    }
}
